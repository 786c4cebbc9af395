// What an instruction reads: operands by the addresses in its code, words of a constant.
ghost use Rattle.std.specs.Prelude.{◌≡◌, ◌+◌, ◌≤◌, length};
ghost use Rattle.std.specs.Float.Ieee as Ieee;
ghost use Rattle.std.specs.Float.{binary64};
ghost use Rattle.base.specs.Bytes.{u16, u64};
ghost use Rattle.value.specs.Values.{vec_at};
ghost use Rattle.value.specs.Typed.{Canonical};
ghost use Rattle.executor.specs.Execution.{Loadable, Operand};

use value::{CanonicalWord, Shape, Vec3, read_word};

// The operand whose address stands at `at`.
pub fn operand_at<S: Shape>(code: &[u8], at: usize, work: &[u64]) -> S
    requires { Operand S.type_byte code.now at work.now }
    ensures { result ≡ S.from_words work.now (u16 code.now at) }
{
    S::get::<CanonicalWord>(work, base::u16_at(code, at))
}

// ---- a vector whose words are read apart

// `read_word`, where fmod by zero makes the NaN: a branch then stands between the components of a vector, so that two words
// that were stored apart are not loaded at once, which stalls a processor.
#[tactic(auto, using(crate::proofs::Canonical::remainder_nan, value::proofs::Floats::nan_is, value::proofs::Floats::regular))]
pub fn read_apart(w: u64, x: f64) -> f64
    requires { Canonical w }
    ensures { result ≡ Ieee.of_bits binary64 w }
{
    if w == 0x7FF8_0000_0000_0000 {
        x % 0.0
    } else {
        f64::from_bits(w)
    }
}

pub fn load_apart(m: &[u64], at: usize) -> Vec3
    requires { Loadable m.now at 3 }
    ensures { result ≡ vec_at m.now at }
{
    let x = read_word(m[at]);
    let y = read_apart(m[at + 1], x);
    let z = read_apart(m[at + 2], x);
    Vec3 { x, y, z }
}

pub fn apart_at(code: &[u8], at: usize, work: &[u64]) -> Vec3
    requires { Operand 2 code.now at work.now }
    ensures { result ≡ vec_at work.now (u16 code.now at) }
{
    load_apart(work, base::u16_at(code, at))
}

// ---- a word of a constant

pub fn constant_at(code: &[u8], at: usize) -> f64
    requires { at + 8 ≤ length code.now }
    ensures { result ≡ Ieee.of_bits binary64 (u64 code.now at) }
{
    value::float_of(base::u64_at(code, at))
}
