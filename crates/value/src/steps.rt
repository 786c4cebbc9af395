// The component steps: a type for each operator, so that what is made of a step is made for each, and the back end knows the operator at each component.
ghost use Rattle.std.specs.Prelude.{◌≡◌, refl, ℕ};
ghost use Rattle.value.specs.declared.Operator.{Operator};
ghost use Rattle.value.specs.declared.Operator.TheVariants as Operators;
ghost use Rattle.value.specs.Steps.{step_of, operands_of, components};

use super::shapes::{Components, Shape};
use super::{Mat4, Operator, Value, Vec3};

pub trait Step {
    ghost operator: { Operator };

    // How many of the four operands it reads.
    const OPERANDS: usize;

    ghost OPERANDS: { ℕ };

    fn step(a: f64, b: f64, c: f64, d: f64) -> f64
        ensures { result ≡ step_of operator a b c d };

    ghost operands_are: { OPERANDS ≡ operands_of operator };
}

pub struct Add;

impl Step for Add {
    ghost operator = { Operators.Add };

    const OPERANDS: usize = 2;

    ghost OPERANDS = { 2 };

    ghost operands_are = { refl };

    fn step(a: f64, b: f64, _: f64, _: f64) -> f64 {
        a + b
    }
}

pub struct Subtract;

impl Step for Subtract {
    ghost operator = { Operators.Subtract };

    const OPERANDS: usize = 2;

    ghost OPERANDS = { 2 };

    ghost operands_are = { refl };

    fn step(a: f64, b: f64, _: f64, _: f64) -> f64 {
        a - b
    }
}

pub struct Multiply;

impl Step for Multiply {
    ghost operator = { Operators.Multiply };

    const OPERANDS: usize = 2;

    ghost OPERANDS = { 2 };

    ghost operands_are = { refl };

    fn step(a: f64, b: f64, _: f64, _: f64) -> f64 {
        a * b
    }
}

pub struct Divide;

impl Step for Divide {
    ghost operator = { Operators.Divide };

    const OPERANDS: usize = 2;

    ghost OPERANDS = { 2 };

    ghost operands_are = { refl };

    fn step(a: f64, b: f64, _: f64, _: f64) -> f64 {
        a / b
    }
}

pub struct Minimum;

// `f64::min` gives the other operand where one is a NaN, and leaves open which zero it gives; this gives b in both.
impl Step for Minimum {
    ghost operator = { Operators.Minimum };

    const OPERANDS: usize = 2;

    ghost OPERANDS = { 2 };

    ghost operands_are = { refl };

    fn step(a: f64, b: f64, _: f64, _: f64) -> f64 {
        if a < b { a } else { b }
    }
}

pub struct Maximum;

// Nor is this `f64::max`.
impl Step for Maximum {
    ghost operator = { Operators.Maximum };

    const OPERANDS: usize = 2;

    ghost OPERANDS = { 2 };

    ghost operands_are = { refl };

    fn step(a: f64, b: f64, _: f64, _: f64) -> f64 {
        if a > b { a } else { b }
    }
}

pub struct Absolute;

// The sign is cleared, a zero's too.
impl Step for Absolute {
    ghost operator = { Operators.Absolute };

    const OPERANDS: usize = 1;

    ghost OPERANDS = { 1 };

    ghost operands_are = { refl };

    #[tactic(auto, using(crate::proofs::Floats::absolute_by_cases))]
    fn step(a: f64, _: f64, _: f64, _: f64) -> f64 {
        a.abs()
    }
}

pub struct Remainder;

// C's fmod.
impl Step for Remainder {
    ghost operator = { Operators.Remainder };

    const OPERANDS: usize = 2;

    ghost OPERANDS = { 2 };

    ghost operands_are = { refl };

    fn step(a: f64, b: f64, _: f64, _: f64) -> f64 {
        a % b
    }
}

pub struct Select;

impl Step for Select {
    ghost operator = { Operators.Select };

    const OPERANDS: usize = 4;

    ghost OPERANDS = { 4 };

    ghost operands_are = { refl };

    fn step(a: f64, b: f64, c: f64, d: f64) -> f64 {
        if a < b { c } else { d }
    }
}

pub struct Clamp;

// `f64::clamp` asks for ordered bounds; these are whatever a graph holds.
impl Step for Clamp {
    ghost operator = { Operators.Clamp };

    const OPERANDS: usize = 3;

    ghost OPERANDS = { 3 };

    ghost operands_are = { refl };

    fn step(a: f64, low: f64, high: f64, _: f64) -> f64 {
        if a < low {
            low
        } else if high < a {
            high
        } else {
            a
        }
    }
}

// Where the operator is known only at run time: the step of its type.
impl Operator {
    pub fn step<S: Components>(self, a: S, b: S, c: S, d: S) -> S
        ensures { result ≡ S.each (step_of self) a b c d }
    {
        match self {
            Operator::Add => a.step::<Add>(b, c, d),
            Operator::Subtract => a.step::<Subtract>(b, c, d),
            Operator::Multiply => a.step::<Multiply>(b, c, d),
            Operator::Divide => a.step::<Divide>(b, c, d),
            Operator::Minimum => a.step::<Minimum>(b, c, d),
            Operator::Maximum => a.step::<Maximum>(b, c, d),
            Operator::Absolute => a.step::<Absolute>(b, c, d),
            Operator::Remainder => a.step::<Remainder>(b, c, d),
            Operator::Select => a.step::<Select>(b, c, d),
            Operator::Clamp => a.step::<Clamp>(b, c, d),
        }
    }

    // Of the first operand's type.
    pub fn step_value(self, a: Value, b: Value, c: Value, d: Value) -> Value
        ensures { result ≡ components (step_of self) a b c d }
    {
        match a {
            Value::Scalar(x) => Value::Scalar(self.step(x, f64::of(b), f64::of(c), f64::of(d))),
            Value::Vector(x) => Value::Vector(self.step(x, Vec3::of(b), Vec3::of(c), Vec3::of(d))),
            Value::Matrix(x) => Value::Matrix(self.step(x, Mat4::of(b), Mat4::of(c), Mat4::of(d))),
        }
    }
}
