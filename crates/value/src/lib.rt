// The values of a graph: their words, the arithmetic of each kind, and values in a memory of words.
#![tactic(auto)]

ghost use Rattle.std.specs.Prelude.{◌≡◌, ◌+◌, ◌≤◌, length};
ghost use Rattle.std.proofs.lemmas.List.Edits.{sets};
ghost use Rattle.ports.specs.Ports.{width};
ghost use Rattle.value.specs.Values as Values;
ghost use Rattle.value.specs.Values.{words_of, value_at};
ghost use Rattle.value.specs.Steps.{step_of, components};

mod parts;
mod shapes;
mod steps;
mod words;

pub use parts::{
    compose_vector, cross, dot, from_columns, from_rows, matvec, transpose, vector_from_scalar,
};
pub use shapes::{Components, Shape};
pub use steps::{
    Absolute, Add, Clamp, Divide, Maximum, Minimum, Multiply, Remainder, Select, Step, Subtract,
};
pub use words::{
    AnyWord, CanonicalWord, Reading, argument_word, constant_word, constants_allowed, finite,
    finite_word, float_of, read_word, word_of,
};

#[derive(Clone, Copy)]
pub struct Vec3 {
    pub x: f64,
    pub y: f64,
    pub z: f64,
}

#[derive(Clone, Copy)]
pub struct Row {
    pub c0: f64,
    pub c1: f64,
    pub c2: f64,
    pub c3: f64,
}

#[derive(Clone, Copy)]
pub struct Mat4 {
    pub r0: Row,
    pub r1: Row,
    pub r2: Row,
    pub r3: Row,
}

#[derive(Clone, Copy)]
pub enum Value {
    Scalar(f64),
    Vector(Vec3),
    Matrix(Mat4),
}

// The steps that go component by component, as values: in clauses, and for callers that learn the operator at run time. `steps.rt` has a type for each.
#[derive(Clone, Copy)]
pub enum Operator {
    Add,
    Subtract,
    Multiply,
    Divide,
    Minimum,
    Maximum,
    Absolute,
    Remainder,
    Select,
    Clamp,
}

impl Value {
    // 1 a scalar, 2 a vector, 3 a matrix: a type byte, as in `ports`.
    pub fn type_of(self) -> u8
        ensures { result ≡ Values.type_of self }
    {
        match self {
            Value::Scalar(_) => 1,
            Value::Vector(_) => 2,
            Value::Matrix(_) => 3,
        }
    }

    // The value of a type at an address: 1 a scalar, 2 a vector, every other number a matrix.
    pub fn get(m: &[u64], ty: u8, at: usize) -> Value
        requires { at + width ty ≤ length m.now }
        ensures { result ≡ value_at m.now ty at }
    {
        match ty {
            1 => Value::Scalar(f64::get::<AnyWord>(m, at)),
            2 => Value::Vector(Vec3::get::<AnyWord>(m, at)),
            _ => Value::Matrix(Mat4::get::<AnyWord>(m, at)),
        }
    }

    // Inlined, so that nothing is tested where the variant is known.
    #[inline(always)]
    pub fn put(self, m: &mut [u64], at: usize)
        requires { at + length (words_of self) ≤ length m.old }
        ensures { m.new ≡ sets m.old at (words_of self) }
    {
        match self {
            Value::Scalar(a) => a.put(m, at),
            Value::Vector(a) => a.put(m, at),
            Value::Matrix(a) => a.put(m, at),
        }
    }

    // Of the first operand's type.
    pub fn step<S: Step>(self, b: Value, c: Value, d: Value) -> Value
        ensures { result ≡ components (step_of S.operator) self b c d }
    {
        match self {
            Value::Scalar(a) => Value::Scalar(a.step::<S>(f64::of(b), f64::of(c), f64::of(d))),
            Value::Vector(a) => Value::Vector(a.step::<S>(Vec3::of(b), Vec3::of(c), Vec3::of(d))),
            Value::Matrix(a) => Value::Matrix(a.step::<S>(Mat4::of(b), Mat4::of(c), Mat4::of(d))),
        }
    }
}
