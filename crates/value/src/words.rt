// Words and the floats they stand for.
ghost use Rattle.std.specs.Prelude.{◌≡◌, ◌+◌, ◌*◌, ◌≤◌, ℕ, length};
ghost use Rattle.std.specs.Float.Ieee as Ieee;
ghost use Rattle.std.specs.Float.{binary64};
ghost use Rattle.base.specs.Bytes.{u64, constants};
ghost use Rattle.base.specs.Lists.{every};
ghost use Rattle.value.specs.Values as Values;
ghost use Rattle.value.specs.Values.{word, constant_word, argument_word};
ghost use Rattle.value.specs.Typed.{Finite, Canonical};

use std::num;

// The word of a float: its bit pattern, and one pattern for every NaN.
pub fn word_of(x: f64) -> u64
    ensures { result ≡ word x }
{
    num::f64_to_bits_with_nan(x)
}

// The same of a float that is finite, with no test for a NaN.
#[tactic(auto, using(crate::proofs::Floats::finite_no_nan))]
pub fn finite_word(x: f64) -> u64
    requires { Finite (word x) }
    ensures { result ≡ word x }
{
    x.to_bits()
}

// The float of a word, whatever the word.
pub fn float_of(w: u64) -> f64
    ensures { result ≡ Ieee.of_bits binary64 w }
{
    num::f64_from_bits_with_nan(w)
}

// The same of a canonical word, where one comparison is enough: a NaN has one pattern. Every operand of a run is read so.
#[tactic(auto, using(crate::proofs::Floats::regular))]
pub fn read_word(w: u64) -> f64
    requires { Canonical w }
    ensures { result ≡ Ieee.of_bits binary64 w }
{
    if w == 0x7FF8_0000_0000_0000 {
        f64::NAN
    } else {
        f64::from_bits(w)
    }
}

// How a memory's words are read.
pub trait Reading {
    ghost readable: { ℕ → Type 0 };

    fn read(w: u64) -> f64
        requires { readable w }
        ensures { result ≡ Ieee.of_bits binary64 w };
}

// Whatever the words.
pub struct AnyWord;

impl Reading for AnyWord {
    ghost readable = { λ w. Unit {0} };

    fn read(w: u64) -> f64 {
        float_of(w)
    }
}

// Where they are canonical.
pub struct CanonicalWord;

impl Reading for CanonicalWord {
    ghost readable = { Canonical };

    fn read(w: u64) -> f64 {
        read_word(w)
    }
}

// Whether a word stands for a finite value.
pub fn finite(w: u64) -> bool
    ensures { result ≡ Values.finite w }
{
    w % 0x8000_0000_0000_0000 < 0x7FF0_0000_0000_0000
}

// Whether a word may be a constant's: a name apart from an argument's, as the definitions have it.
pub fn constant_word(w: u64) -> bool
    ensures { result ≡ constant_word w }
{
    finite(w)
}

// Whether the constant at `at` may be one. Its two highest bytes tell: only these are loaded, and such a load seldom lies across two
// lines of the cache, as one of eight bytes does at each eighth constant.
fn constant_allowed(s: &[u8], at: usize) -> bool
    requires { at + 8 ≤ length s.now }
    ensures { result ≡ constant_word (u64 s.now at) }
{
    base::u16_at(s, at + 6) % 0x8000 < 0x7FF0
}

// Whether each of `count` constants from the byte `from` on may be one.
pub fn constants_allowed(s: &[u8], from: usize, count: usize) -> bool
    requires { from + 8 * count ≤ length s.now }
    ensures { result ≡ every constant_word (constants count s.now from) }
{
    (0..count).all(|i| constant_allowed(s, from + 8 * i))
}

// Whether a word may be an argument's.
pub fn argument_word(w: u64) -> bool
    ensures { result ≡ argument_word w }
{
    finite(w)
}
