// Version 2's record of the words that are written: a mark for each.
ghost use Rattle.std.specs.Prelude.{◌≡◌, true, ◌+◌, ◌*◌, ◌≤◌, ◌<◌, length};
ghost use Rattle.ports.specs.Ports.{width};
ghost use Rattle.base.specs.Lists.{span, every};
ghost use Rattle.bytecode.specs.Code.{addresses};
ghost use Rattle.runner.specs.Checks.{marked, Extended, Put};

use super::Cursor;

// Marks `count` words more. One word apart from the loop: that becomes a call of memset, which costs more than the rest of the
// check of a scalar.
pub fn mark_words(marks: &mut [bool], from: usize, count: usize)
    requires { from + count ≤ length marks.old }
    ensures { Extended from count marks.old marks.new }
{
    if count == 1 {
        marks[from] = true;
    } else {
        marks[from..from + count].fill(true);
    }
}

fn is_written(marks: &[bool], a: usize) -> bool
    ensures { result ≡ marked marks.now a }
{
    a < marks.len() && marks[a]
}

fn words_written(marks: &[bool], from: usize, count: usize) -> bool
    requires { from + count ≤ 0x1_0000_0000 }
    ensures { result ≡ every (marked marks.now) (span from count) }
{
    (from..from + count).all(|a| is_written(marks, a))
}

// A value of the type t, a scalar without a loop.
pub fn value_written(marks: &[bool], a: usize, t: u8) -> bool
    requires { a ≤ 65535 }
    ensures { result ≡ every (marked marks.now) (span a (width t)) }
{
    if t == 1 {
        is_written(marks, a)
    } else {
        words_written(marks, a, ports::width(t))
    }
}

pub fn outputs_written(s: &[u8], from: usize, count: usize, marks: &[bool]) -> bool
    requires { from + 2 * count ≤ length s.now }
    ensures { result ≡ every (marked marks.now) (addresses count s.now from) }
{
    (0..count).all(|i| is_written(marks, base::u16_at(s, from + 2 * i)))
}

// A result of some words at `first`: they are written now. More words than a code may have are refused at once: its word count
// cannot be theirs.
pub fn write_result(
    first: usize,
    words: usize,
    next: usize,
    high: usize,
    marks: &mut [bool],
) -> Option<Cursor>
    requires { (first < 65536) × (words < 256) }
    ensures { Put true first words next high marks.old marks.new result }
{
    let end = first + words;
    if marks.len() < end {
        return None;
    }
    mark_words(marks, first, words);
    Some(Cursor {
        at: next,
        result: high.max(end),
    })
}
