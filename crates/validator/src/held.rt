// The record of what each word of the proposed list holds.
ghost use Rattle.std.specs.Prelude.{◌≡◌, map, ◌+◌, ◌*◌, ◌≤◌, ◌<◌, eqb, length};
ghost use Rattle.std.proofs.lemmas.List.Edits.{sets};
ghost use Rattle.ports.specs.Ports.{types, width};
ghost use Rattle.base.specs.Limits.{address_limit};
ghost use Rattle.base.specs.Lists.{span};
ghost use Rattle.base.specs.Bytes.{constants};
ghost use Rattle.bytecode.specs.Code.{addresses};
ghost use Rattle.validator.specs.Judge.{alike};
ghost use Rattle.validator.specs.Tests.{held_at, held_words, held_operands, first_words};

// Nothing yet: a number and no `Option`, since the record is lent as numbers of 16 bits.
const NO_WORD: usize = 0xFFFF;

fn held_at(words: &[u16], a: usize) -> usize
    ensures { result ≡ held_at words.now a }
{
    if a < words.len() {
        usize::from(words[a])
    } else {
        NO_WORD
    }
}

// Whether the `count` words from `a` on hold version 1's from `w` on.
fn held_words(words: &[u16], a: usize, w: usize, count: usize) -> bool
    requires { (a < address_limit) × (w < address_limit) × (count ≤ 16) }
    ensures { result ≡ held_words words.now a w count }
{
    (0..count).all(|i| held_at(words, a + i) == w + i)
}

// A value of the type t, a scalar without a loop.
fn held_value(words: &[u16], a: usize, w: usize, t: u8) -> bool
    requires { (a < address_limit) × (w < address_limit) }
    ensures { result ≡ held_words words.now a w (width t) }
{
    if t == 1 {
        held_at(words, a) == w
    } else {
        held_words(words, a, w, ports::width(t))
    }
}

// The same of operands, the first of the type `first` and the others of the type `rest`; version 1's addresses stand at `from`.
pub fn held_operands(
    words: &[u16],
    ours: &[u8],
    from: usize,
    code: &[u8],
    at: usize,
    count: usize,
    first: u8,
    rest: u8,
) -> bool
    requires { (from + 2 * count ≤ length ours.now) × (at + 2 * count ≤ length code.now) }
    ensures { result ≡ held_operands words.now (types count first rest) (addresses count ours.now from) (addresses count code.now at) }
{
    (0..count).all(|i| {
        let t = if i == 0 { first } else { rest };
        held_value(
            words,
            base::u16_at(code, at + 2 * i),
            base::u16_at(ours, from + 2 * i),
            t,
        )
    })
}

// Of output words.
pub fn held_outputs(
    words: &[u16],
    ours: &[u8],
    from: usize,
    code: &[u8],
    at: usize,
    count: usize,
) -> bool
    requires { (from + 2 * count ≤ length ours.now) × (at + 2 * count ≤ length code.now) }
    ensures { result ≡ alike eqb (map (held_at words.now) (addresses count code.now at)) (addresses count ours.now from) }
{
    (0..count).all(|i| held_at(words, base::u16_at(code, at + 2 * i))
        == base::u16_at(ours, from + 2 * i))
}

// Whether two codes have the same `count` constant words.
pub fn same_constants(ours: &[u8], from: usize, code: &[u8], at: usize, count: usize) -> bool
    requires { (from + 8 * count ≤ length ours.now) × (at + 8 * count ≤ length code.now) }
    ensures { result ≡ alike eqb (constants count code.now at) (constants count ours.now from) }
{
    (0..count).all(|i| base::u64_at(code, at + 8 * i) == base::u64_at(ours, from + 8 * i))
}

// The `count` words from `a` on hold version 1's from `w` on. One word apart from the loop, as most results have one.
pub fn note_words(words: &mut [u16], a: usize, w: usize, count: usize)
    requires { (a + count ≤ length words.old) × (w + count ≤ address_limit) }
    ensures { words.new ≡ sets words.old a (span w count) }
{
    if count == 1 {
        words[a] = w as u16;
        return;
    }
    for j in 0..count {
        words[a + j] = (w + j) as u16;
    }
}

// At the start the arguments' words hold themselves, and `rest` words behind them nothing.
pub fn note_arguments(words: &mut [u16], arguments: usize, rest: usize)
    requires { (arguments + rest ≤ length words.old) × (arguments ≤ address_limit) }
    ensures { words.new ≡ sets words.old 0 (first_words arguments rest) }
{
    note_words(words, 0, 0, arguments);
    words[arguments..arguments + rest].fill(0xFFFF);
}
