// One instruction of the proposed list beside the instruction of version 1 that it carries out; and where the instructions of version 1 stand.
ghost use Rattle.std.specs.Prelude.{◌≡◌, ◌+◌, ◌≤◌, length};
ghost use Rattle.std.proofs.lemmas.List.Edits.{sets};
ghost use Rattle.base.specs.Limits.{header_length, word_limit};
ghost use Rattle.validator.specs.Tests.{carried_at, Comparable, Steppable, Stepped, halves, results_from, Listed};

use super::held::{held_operands, note_words, same_constants};
use base::{HEADER_LENGTH, WORD_LIMIT};
use ports::Ports;

// Whether the instruction at `at` has the kind, the type and the constants of version 1's at `from`, and reads the same words. The two
// lists and their places stay parameters: each call stands at another place of each.
fn carried(ours: &[u8], from: usize, code: &[u8], at: usize, row: Ports, words: &[u16]) -> bool
    requires { Comparable ours.now from code.now at row }
    ensures { result ≡ carried_at ours.now from code.now at words.now }
{
    let t = code[at + 1];
    let n = usize::from(row.operands);
    let constants = row.constant_words();
    code[at] == ours[from]
        && t == ours[from + 1]
        && same_constants(ours, from + 2 + 2 * n, code, at + 4 + 2 * n, constants)
        && held_operands(
            words,
            ours,
            from + 2,
            code,
            at + 4,
            n,
            ports::own(t, row.first),
            ports::own(t, row.rest),
        )
}

// The instruction at `at`, whose number is m: its number is taken, and the words of its result hold version 1's.
pub fn carry_out(
    ours: &[u8],
    code: &[u8],
    at: usize,
    row: Ports,
    m: usize,
    count: usize,
    index: &mut [u16],
    words: &mut [u16],
) -> Option<usize>
    requires { Steppable ours.now code.now at m count row index.old words.old }
    ensures { Stepped ours.now code.now at m count index.old words.old index.new words.new result }
{
    if count <= m {
        return None;
    }
    let half = usize::from(index[m]);
    if half == 0 || !carried(ours, 2 * half, code, at, row, words) {
        return None;
    }
    index[m] = 0;
    let w = usize::from(words[WORD_LIMIT + m]);
    note_words(
        words,
        base::u16_at(code, at + 2),
        w,
        row.result_words(code[at + 1]),
    );
    Some(at + 4 + 2 * usize::from(row.operands) + 8 * row.constant_words())
}

// Of the instructions of version 1, whose first result has the word `first`: half the place of each, and its result's first word, by its number.
pub fn index_list(ours: &[u8], count: usize, first: usize, index: &mut [u16], words: &mut [u16])
    requires { Listed count ours.now header_length first × (length ours.now ≤ 0x20000) × (count ≤ length index.old) × (word_limit + count ≤ length words.old) }
    ensures { (index.new ≡ sets index.old 0 (halves count ours.now header_length)) × (words.new ≡ sets words.old word_limit (results_from count ours.now header_length first)) }
{
    let mut at = HEADER_LENGTH;
    let mut w = first;
    for i in 0..count {
        let row = ports::ports_of(ours[at]);
        index[i] = (at / 2) as u16;
        words[WORD_LIMIT + i] = w as u16;
        w += row.result_words(ours[at + 1]);
        at += 2 + 2 * usize::from(row.operands) + 8 * row.constant_words();
    }
}
