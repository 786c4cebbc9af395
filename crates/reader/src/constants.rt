// A constant of a node, as a value. It is finite, so no word is tested for a NaN. `Components::get` of `value` reads a memory of words,
// and these are bytes.
ghost use Rattle.std.specs.Prelude.{◌≡◌};
ghost use Rattle.std.specs.Float.Ieee as Ieee;
ghost use Rattle.std.specs.Float.{binary64};
ghost use Rattle.ports.specs.Ports as PortList;
ghost use Rattle.value.specs.Values.{value_of};
ghost use Rattle.base.specs.Bytes.{u64, constants};
ghost use Rattle.reader.specs.Records.{FiniteWords, row_at, matrix_at, vector_at};

use base::u64_at;
use value::{Mat4, Row, Value, Vec3};

fn float_at(s: &[u8], at: usize) -> f64
    requires { FiniteWords s.now at 1 }
    ensures { result ≡ Ieee.of_bits binary64 (u64 s.now at) }
{
    value::read_word(u64_at(s, at))
}

fn row_at(s: &[u8], at: usize) -> Row
    requires { FiniteWords s.now at 4 }
    ensures { result ≡ row_at s.now at }
{
    Row {
        c0: float_at(s, at),
        c1: float_at(s, at + 8),
        c2: float_at(s, at + 16),
        c3: float_at(s, at + 24),
    }
}

fn matrix_at(s: &[u8], at: usize) -> Mat4
    requires { FiniteWords s.now at 16 }
    ensures { result ≡ matrix_at s.now at }
{
    Mat4 {
        r0: row_at(s, at),
        r1: row_at(s, at + 32),
        r2: row_at(s, at + 64),
        r3: row_at(s, at + 96),
    }
}

fn vector_at(s: &[u8], at: usize) -> Vec3
    requires { FiniteWords s.now at 3 }
    ensures { result ≡ vector_at s.now at }
{
    Vec3 {
        x: float_at(s, at),
        y: float_at(s, at + 8),
        z: float_at(s, at + 16),
    }
}

// The value of the type that stands at `at`.
pub fn constant_at(s: &[u8], at: usize, ty: u8) -> Value
    requires { FiniteWords s.now at (PortList.width ty) }
    ensures { result ≡ value_of ty (constants (PortList.width ty) s.now at) }
{
    match ty {
        1 => Value::Scalar(float_at(s, at)),
        2 => Value::Vector(vector_at(s, at)),
        _ => Value::Matrix(matrix_at(s, at)),
    }
}
