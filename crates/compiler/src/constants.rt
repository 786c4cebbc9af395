// A constant's words in the list, the lowest byte first. It is finite, so no float is tested for a NaN. `Components::put` does not
// serve here: it writes words of a memory, and these are bytes of a code.
ghost use Rattle.std.specs.Prelude.{◌≡◌, ◌+◌, ◌*◌, ◌≤◌, length};
ghost use Rattle.std.proofs.lemmas.List.Edits.{sets};
ghost use Rattle.base.specs.Bytes.{bytes_of, all_bytes};
ghost use Rattle.base.specs.Lists.{Each};
ghost use Rattle.value.specs.Values.{word, vec_words, row_words, words_of};
ghost use Rattle.value.specs.Typed.{Finite};

use base::put64;
use value::{Mat4, Row, Value, Vec3, finite_word};

fn put_float(code: &mut [u8], at: usize, x: f64)
    requires { (at + 8 ≤ length code.old) × Finite (word x) }
    ensures { code.new ≡ sets code.old at (bytes_of 8 (word x)) }
{
    put64(code, at, finite_word(x));
}

fn put_vector(code: &mut [u8], at: usize, v: Vec3)
    requires { (at + 24 ≤ length code.old) × Each Finite (vec_words v) }
    ensures { code.new ≡ sets code.old at (all_bytes 8 (vec_words v)) }
{
    put_float(code, at, v.x);
    put_float(code, at + 8, v.y);
    put_float(code, at + 16, v.z);
}

fn put_matrix_row(code: &mut [u8], at: usize, v: Row)
    requires { (at + 32 ≤ length code.old) × Each Finite (row_words v) }
    ensures { code.new ≡ sets code.old at (all_bytes 8 (row_words v)) }
{
    put_float(code, at, v.c0);
    put_float(code, at + 8, v.c1);
    put_float(code, at + 16, v.c2);
    put_float(code, at + 24, v.c3);
}

fn put_matrix(code: &mut [u8], at: usize, v: Mat4)
    requires { (at + 128 ≤ length code.old) × Each Finite (words_of (Value.Matrix v)) }
    ensures { code.new ≡ sets code.old at (all_bytes 8 (words_of (Value.Matrix v))) }
{
    put_matrix_row(code, at, v.r0);
    put_matrix_row(code, at + 32, v.r1);
    put_matrix_row(code, at + 64, v.r2);
    put_matrix_row(code, at + 96, v.r3);
}

// The words of a value, and the place behind them.
pub fn put_constant(code: &mut [u8], at: usize, v: Value) -> usize
    requires { (at + 8 * length (words_of v) ≤ length code.old) × Each Finite (words_of v) }
    ensures { (code.new ≡ sets code.old at (all_bytes 8 (words_of v))) × (result ≡ at + 8 * length (words_of v)) }
{
    match v {
        Value::Scalar(a) => {
            put_float(code, at, a);
            at + 8
        }
        Value::Vector(a) => {
            put_vector(code, at, a);
            at + 24
        }
        Value::Matrix(a) => {
            put_matrix(code, at, a);
            at + 128
        }
    }
}
