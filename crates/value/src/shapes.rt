// What is made of floats, component by component, and the three types of values among them.
ghost use Rattle.std.specs.Prelude.{◌≡◌, ◌+◌, ◌≤◌, refl, ℕ, Float, List, [], ◌∷◌, length};
ghost use Rattle.std.proofs.lemmas.List.Edits.{sets};
ghost use Rattle.ports.specs.Ports.{width};
ghost use Rattle.value.specs.declared.Value.{Value};
ghost use Rattle.value.specs.declared.Value.TheVariants.{Scalar, Vector, Matrix};
ghost use Rattle.value.specs.Values.{word, vec_words, row_words, mat_words, words_of, type_of, float_at, vec_at, row_at, mat_at, value_at};
ghost use Rattle.value.specs.Steps as Steps;
ghost use Rattle.value.specs.Steps.{step_of, scalar, vector, matrix, each_float, each_vec, each_row, each_mat, components};
ghost use Rattle.value.specs.Typed.{Standing};

use super::steps::Step;
use super::words::{Reading, word_of};
use super::{Mat4, Row, Value, Vec3};

// In a memory of words each component takes one, in turn.
pub trait Components: Copy {
    const WORDS: usize;

    ghost WORDS: { ℕ };

    ghost from_words: { List ℕ → ℕ → Self };

    ghost words: { Self → List ℕ };

    ghost zeros: { Self };

    ghost each: { Steps.Step → Self → Self → Self → Self → Self };

    fn zeros() -> Self
        ensures { result ≡ zeros };

    fn get<R: Reading>(m: &[u64], at: usize) -> Self
        requires { Standing R.readable m.now at WORDS }
        ensures { result ≡ from_words m.now at };

    fn put(self, m: &mut [u64], at: usize)
        requires { at + WORDS ≤ length m.old }
        ensures { m.new ≡ sets m.old at (words self) };

    // A step on each component, and those of the same place of three others.
    fn step<S: Step>(self, b: Self, c: Self, d: Self) -> Self
        ensures { result ≡ each (step_of S.operator) self b c d };
}

// A type of the graph.
pub trait Shape: Components {
    ghost type_byte: { ℕ };

    ghost value: { Self → Value };

    ghost of: { Value → Self };

    fn value(self) -> Value
        ensures { result ≡ value self };

    // A value as one of this type; zeros where it is of another.
    fn of(v: Value) -> Self
        ensures { result ≡ of v };

    ghost width_is: { Self.WORDS ≡ width type_byte };

    ghost type_is: { (x : Self) → type_of (value x) ≡ type_byte };

    ghost of_is: { (x : Self) → of (value x) ≡ x };

    ghost none_is: { of (Scalar Steps.zero64) ≡ Self.zeros };

    ghost at_is: { (m : List ℕ) (a : ℕ) → value_at m type_byte a ≡ value (Self.from_words m a) };

    ghost stored_is: { (x : Self) → words_of (value x) ≡ Self.words x };

    ghost each_is: { (g : Steps.Step) (a : Self) (b c d : Value) → components g (value a) b c d ≡ value (Self.each g a (of b) (of c) (of d)) };
}

// ---- a scalar

impl Components for f64 {
    const WORDS: usize = 1;

    ghost WORDS = { 1 };

    ghost from_words = { float_at };

    ghost words = { λ x. word x ∷ [] };

    ghost zeros = { Steps.zero64 };

    ghost each = { each_float };

    fn zeros() -> f64 {
        0.0
    }

    fn get<R: Reading>(m: &[u64], at: usize) -> f64 {
        R::read(m[at])
    }

    fn put(self, m: &mut [u64], at: usize) {
        m[at] = word_of(self);
    }

    fn step<S: Step>(self, b: f64, c: f64, d: f64) -> f64 {
        S::step(self, b, c, d)
    }
}

impl Shape for f64 {
    ghost type_byte = { 1 };

    ghost value = { Scalar };

    ghost of = { scalar };

    ghost width_is = { refl };

    ghost type_is = { λ x. refl };

    ghost of_is = { λ x. refl };

    ghost none_is = { refl };

    ghost at_is = { λ m a. refl };

    ghost stored_is = { λ x. refl };

    ghost each_is = { λ g a b c d. refl };

    fn value(self) -> Value {
        Value::Scalar(self)
    }

    fn of(v: Value) -> f64 {
        match v {
            Value::Scalar(a) => a,
            _ => 0.0,
        }
    }
}

// ---- a vector

impl Components for Vec3 {
    const WORDS: usize = 3;

    ghost WORDS = { 3 };

    ghost from_words = { vec_at };

    ghost words = { vec_words };

    ghost zeros = { Steps.zero_vec };

    ghost each = { each_vec };

    fn zeros() -> Vec3 {
        Vec3 {
            x: 0.0,
            y: 0.0,
            z: 0.0,
        }
    }

    fn get<R: Reading>(m: &[u64], at: usize) -> Vec3 {
        Vec3 {
            x: f64::get::<R>(m, at),
            y: f64::get::<R>(m, at + 1),
            z: f64::get::<R>(m, at + 2),
        }
    }

    fn put(self, m: &mut [u64], at: usize) {
        self.x.put(m, at);
        self.y.put(m, at + 1);
        self.z.put(m, at + 2);
    }

    fn step<S: Step>(self, b: Vec3, c: Vec3, d: Vec3) -> Vec3 {
        Vec3 {
            x: S::step(self.x, b.x, c.x, d.x),
            y: S::step(self.y, b.y, c.y, d.y),
            z: S::step(self.z, b.z, c.z, d.z),
        }
    }
}

impl Shape for Vec3 {
    ghost type_byte = { 2 };

    ghost value = { Vector };

    ghost of = { vector };

    ghost width_is = { refl };

    ghost type_is = { λ x. refl };

    ghost of_is = { λ x. refl };

    ghost none_is = { refl };

    ghost at_is = { λ m a. refl };

    ghost stored_is = { λ x. refl };

    ghost each_is = { λ g a b c d. refl };

    fn value(self) -> Value {
        Value::Vector(self)
    }

    fn of(v: Value) -> Vec3 {
        match v {
            Value::Vector(a) => a,
            _ => Vec3::zeros(),
        }
    }
}

// ---- a matrix, row by row

impl Components for Row {
    const WORDS: usize = 4;

    ghost WORDS = { 4 };

    ghost from_words = { row_at };

    ghost words = { row_words };

    ghost zeros = { Steps.zero_row };

    ghost each = { each_row };

    fn zeros() -> Row {
        Row {
            c0: 0.0,
            c1: 0.0,
            c2: 0.0,
            c3: 0.0,
        }
    }

    fn get<R: Reading>(m: &[u64], at: usize) -> Row {
        Row {
            c0: f64::get::<R>(m, at),
            c1: f64::get::<R>(m, at + 1),
            c2: f64::get::<R>(m, at + 2),
            c3: f64::get::<R>(m, at + 3),
        }
    }

    fn put(self, m: &mut [u64], at: usize) {
        self.c0.put(m, at);
        self.c1.put(m, at + 1);
        self.c2.put(m, at + 2);
        self.c3.put(m, at + 3);
    }

    fn step<S: Step>(self, b: Row, c: Row, d: Row) -> Row {
        Row {
            c0: S::step(self.c0, b.c0, c.c0, d.c0),
            c1: S::step(self.c1, b.c1, c.c1, d.c1),
            c2: S::step(self.c2, b.c2, c.c2, d.c2),
            c3: S::step(self.c3, b.c3, c.c3, d.c3),
        }
    }
}

impl Components for Mat4 {
    const WORDS: usize = 16;

    ghost WORDS = { 16 };

    ghost from_words = { mat_at };

    ghost words = { mat_words };

    ghost zeros = { Steps.zero_mat };

    ghost each = { each_mat };

    fn zeros() -> Mat4 {
        let r = Row::zeros();
        Mat4 {
            r0: r,
            r1: r,
            r2: r,
            r3: r,
        }
    }

    fn get<R: Reading>(m: &[u64], at: usize) -> Mat4 {
        Mat4 {
            r0: Row::get::<R>(m, at),
            r1: Row::get::<R>(m, at + 4),
            r2: Row::get::<R>(m, at + 8),
            r3: Row::get::<R>(m, at + 12),
        }
    }

    fn put(self, m: &mut [u64], at: usize) {
        self.r0.put(m, at);
        self.r1.put(m, at + 4);
        self.r2.put(m, at + 8);
        self.r3.put(m, at + 12);
    }

    fn step<S: Step>(self, b: Mat4, c: Mat4, d: Mat4) -> Mat4 {
        Mat4 {
            r0: self.r0.step::<S>(b.r0, c.r0, d.r0),
            r1: self.r1.step::<S>(b.r1, c.r1, d.r1),
            r2: self.r2.step::<S>(b.r2, c.r2, d.r2),
            r3: self.r3.step::<S>(b.r3, c.r3, d.r3),
        }
    }
}

impl Shape for Mat4 {
    ghost type_byte = { 3 };

    ghost value = { Matrix };

    ghost of = { matrix };

    ghost width_is = { refl };

    ghost type_is = { λ x. refl };

    ghost of_is = { λ x. refl };

    ghost none_is = { refl };

    ghost at_is = { λ m a. refl };

    ghost stored_is = { λ x. refl };

    ghost each_is = { λ g a b c d. refl };

    fn value(self) -> Value {
        Value::Matrix(self)
    }

    fn of(v: Value) -> Mat4 {
        match v {
            Value::Matrix(a) => a,
            _ => Mat4::zeros(),
        }
    }
}
