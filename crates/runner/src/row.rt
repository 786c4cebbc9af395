// One instruction of a code of either version, by its kind's row of the port list. Those of version 2 carry the addresses of
// their results: `ADDRESSED`, a `bool`, since a const parameter takes no enum. Code, place and marks stay parameters: the marks are
// read here and written there, and only in version 2.
ghost use Rattle.std.specs.Prelude.{◌≡◌, ◌+◌, ◌*◌, ◌^◌, ◌≤◌, ◌<◌, length};
ghost use Rattle.base.specs.Bytes.{byte, u16};
ghost use Rattle.ports.specs.Kinds.{kind_of};
ghost use Rattle.ports.specs.Ports.{types, constant_in, ports_of};
ghost use Rattle.bytecode.specs.Code.{addresses};
ghost use Rattle.runner.specs.Checks.{operands_from, operand_good, operands_good, several_good, both_good, constant_good, Given, Put, Stepped};

use super::{Cursor, written};
use ports::Ports;

// Where the operands of the instruction at `at` stand.
pub fn operands_from<const ADDRESSED: bool>(at: usize) -> usize
    requires { at < 2 ^ 63 }
    ensures { result ≡ operands_from ADDRESSED at }
{
    if ADDRESSED { at + 4 } else { at + 2 }
}

// An operand of the type t: its words stand before the next result, or in version 2 each was written.
fn operand_good<const ADDRESSED: bool>(
    s: &[u8],
    at: usize,
    t: u8,
    high: usize,
    marks: &[bool],
) -> bool
    requires { at + 2 ≤ length s.now }
    ensures { result ≡ operand_good ADDRESSED marks.now high t (u16 s.now at) }
{
    let a = base::u16_at(s, at);
    if ADDRESSED {
        written::value_written(marks, a, t)
    } else {
        a + ports::width(t) <= high
    }
}

// Operands, the first of the type `first` and the others of the type `rest`. A loop: a closure gets no proof in a function with
// a const parameter.
fn operands_good<const ADDRESSED: bool>(
    s: &[u8],
    from: usize,
    count: usize,
    first: u8,
    rest: u8,
    high: usize,
    marks: &[bool],
) -> bool
    requires { from + 2 * count ≤ length s.now }
    ensures { result ≡ operands_good ADDRESSED marks.now high (types count first rest) (addresses count s.now from) }
{
    let mut t = first;
    for i in 0..count {
        if !operand_good::<ADDRESSED>(s, from + 2 * i, t, high, marks) {
            return false;
        }
        t = rest;
    }
    true
}

// Any number of operands.
fn several_good<const ADDRESSED: bool>(
    s: &[u8],
    from: usize,
    count: usize,
    first: u8,
    rest: u8,
    high: usize,
    marks: &[bool],
) -> bool
    requires { (from ≤ length s.now) × (count < 256) }
    ensures { result ≡ several_good ADDRESSED s.now from count first rest high marks.now }
{
    2 * count <= s.len() - from
        && operands_good::<ADDRESSED>(s, from, count, first, rest, high, marks)
}

// The words of a constant.
fn constant_good(s: &[u8], from: usize, words: usize) -> bool
    requires { (from ≤ length s.now) × (words < 256) }
    ensures { result ≡ constant_good s.now from words }
{
    8 * words <= s.len() - from && value::constants_allowed(s, from, words)
}

// Two operands, as most kinds have.
fn both_good<const ADDRESSED: bool>(
    s: &[u8],
    from: usize,
    first: u8,
    second: u8,
    high: usize,
    marks: &[bool],
) -> bool
    requires { from ≤ length s.now }
    ensures { result ≡ both_good ADDRESSED s.now from first second high marks.now }
{
    4 <= s.len() - from
        && operand_good::<ADDRESSED>(s, from, first, high, marks)
        && operand_good::<ADDRESSED>(s, from + 2, second, high, marks)
}

// Where the result goes, and what follows it.
fn place_result<const ADDRESSED: bool>(
    s: &[u8],
    cursor: Cursor,
    words: usize,
    next: usize,
    marks: &mut [bool],
) -> Option<Cursor>
    requires { (operands_from ADDRESSED cursor.at ≤ length s.now) × (words < 256) × (cursor.result < 2 ^ 32) }
    ensures { Put ADDRESSED (u16 s.now (cursor.at + 2)) words next cursor.result marks.old marks.new result }
{
    if ADDRESSED {
        let first = base::u16_at(s, cursor.at + 2);
        written::write_result(first, words, next, cursor.result, marks)
    } else {
        Some(Cursor {
            at: next,
            result: cursor.result + words,
        })
    }
}

// The instruction, its kind and its type byte legal, of operands of these types and a result of these words. Without operands
// it has a constant of as many. With two the place behind them does not wait for the row: the check takes half the time.
// Inlined, as the caller knows more of the types and words: else the check takes twice the instructions.
#[inline(always)]
fn check_inputs<const ADDRESSED: bool>(
    s: &[u8],
    cursor: Cursor,
    row: Ports,
    first: u8,
    rest: u8,
    words: usize,
    marks: &mut [bool],
) -> Option<Cursor>
    requires { (operands_from ADDRESSED cursor.at ≤ length s.now) × (cursor.result < 2 ^ 32) × Given s.now cursor.at row first rest words }
    ensures { Stepped ADDRESSED s.now cursor.at cursor.result marks.old marks.new result }
{
    let from = operands_from::<ADDRESSED>(cursor.at);
    let high = cursor.result;
    if row.operands == 0 {
        if !constant_good(s, from, words) {
            return None;
        }
        return place_result::<ADDRESSED>(s, cursor, words, from + 8 * words, marks);
    }
    if row.operands == 2 {
        if !both_good::<ADDRESSED>(s, from, first, rest, high, marks) {
            return None;
        }
        return place_result::<ADDRESSED>(s, cursor, words, from + 4, marks);
    }
    let count = usize::from(row.operands);
    if !several_good::<ADDRESSED>(s, from, count, first, rest, high, marks) {
        return None;
    }
    place_result::<ADDRESSED>(s, cursor, words, from + 2 * count, marks)
}

// One instruction, its kind byte at the cursor, by its kind's row: T first, as a kind with T has one width for all. Asked for
// each operand and the result apart, the check takes half as much again.
pub fn check_instruction<const ADDRESSED: bool>(
    s: &[u8],
    cursor: Cursor,
    row: Ports,
    marks: &mut [bool],
) -> Option<Cursor>
    requires { (operands_from ADDRESSED cursor.at ≤ length s.now) × (cursor.result < 2 ^ 32) × (row ≡ ports_of (kind_of (byte s.now cursor.at))) }
    ensures { Stepped ADDRESSED s.now cursor.at cursor.result marks.old marks.new result }
{
    let t = s[cursor.at + 1];
    if row.has_type() {
        if !ports::is_type(t) {
            return None;
        }
        return check_inputs::<ADDRESSED>(s, cursor, row, t, t, ports::width(t), marks);
    }
    if t != 0 || !row.form.executable() {
        return None;
    }
    let words = usize::from(row.words);
    check_inputs::<ADDRESSED>(s, cursor, row, row.first, row.rest, words, marks)
}
