// The judge of a router's list: a proposed list of version 2 beside version 1's, by the origins of its words. A word's origin is kept
// as the word of version 1 that it holds; no two words of version 1 have one origin.
#![tactic(auto)]

ghost use Rattle.std.specs.Prelude.{◌≡◌, length};
ghost use Rattle.base.specs.Refusals.{outcome};
ghost use Rattle.bytecode.specs.Code.{decode};
ghost use Rattle.validator.specs.Tests.{Judgeable, followed_in};

use base::{Fault, HEADER_LENGTH, OPERATION_LIMIT, PORT_WORD_LIMIT, Refusal, WORD_LIMIT};
use held::{held_outputs, note_arguments};
use instruction::{carry_out, index_list};

mod held;
mod instruction;

// Bytes of a version 1 list within the limits; `specs/Sizes.antt` has the same.
pub const LIST_LIMIT: usize = HEADER_LENGTH
    + 2 * OPERATION_LIMIT
    + 8 * WORD_LIMIT
    + 2 * PORT_WORD_LIMIT;

// A proposed list beside version 1's with the same counts: accepted with the instruction count, or `Fault::Placement` at the first
// instruction at fault, or at the instruction count where only an output is. `index` and `words` are lent for the work; what they
// hold before and after says nothing. They are buffers that the caller has for other work, so that no more stack is needed: so
// what is kept of each instruction of version 1 stands in both, and not in structs.
pub fn judge(
    ours: &[u8],
    code: &[u8],
    numbers: &[u16],
    arguments: usize,
    outputs: usize,
    count: usize,
    total: usize,
    index: &mut [u16],
    words: &mut [u16],
) -> Result<usize, Refusal>
    requires { Judgeable ours.now code.now numbers.now arguments outputs count total (length index.old) (length words.old) }
    ensures { outcome result ≡ followed_in (decode ours.now) (decode code.now) numbers.now }
{
    index_list(ours, count, arguments, index, words);
    note_arguments(words, arguments, total - arguments);
    let mut at = HEADER_LENGTH;
    for p in 0..count {
        let row = ports::ports_of(code[at]);
        let m = usize::from(numbers[p]);
        let Some(next) = carry_out(ours, code, at, row, m, count, index, words) else {
            return Err(Fault::Placement.at(p));
        };
        at = next;
    }
    let size = 2 * outputs;
    if held_outputs(
        words,
        ours,
        ours.len() - size,
        code,
        code.len() - size,
        outputs,
    ) {
        Ok(count)
    } else {
        Err(Fault::Placement.at(count))
    }
}
