// The instructions of a board list, carried out on a memory of words. What carries one out takes the address of its result:
// only the loop knows the list's version, by which results follow one another or stand where the code says.
#![tactic(auto)]

ghost use Rattle.std.specs.Prelude.{◌≡◌, cond, ◌+◌, ◌≤◌, length};
ghost use Rattle.base.specs.Bytes.{byte, u16};
ghost use Rattle.base.specs.Limits.{header_length};
ghost use Rattle.bytecode.specs.Code.{result_bytes, argument_words, read_instructions};
ghost use Rattle.executor.specs.Execution.{Executable, Executed};
ghost use Rattle.executor.specs.Instructions.{version_by, Instructions, after_all};

use base::HEADER_LENGTH;
use value::{Mat4, Vec3};

mod dispatch;
mod operands;
mod operators;
mod plain;

// The bytes of an instruction's operands and constants, and the words of its results.
#[derive(Clone, Copy)]
pub struct Extent {
    pub bytes: usize,
    pub words: usize,
}

// The instruction whose kind byte stands at `at`, and its operands at `from`. Code, place, result and memory stay four parameters, here and
// in what is called: each function takes them all apart at once, and a struct of a `&mut` memory would have to say whose it still is.
pub fn execute(code: &[u8], at: usize, from: usize, res: usize, work: &mut [u64]) -> Extent
    requires { (at + 2 ≤ from) × Executable (byte code.now at) (byte code.now (at + 1)) code.now from res work.old }
    ensures { Executed (byte code.now at) (byte code.now (at + 1)) code.now from res work.old work.new result }
{
    let k = code[at];
    let t = code[at + 1];
    match t {
        0 => dispatch::execute_plain(k, code, from, res, work),
        1 => dispatch::execute_typed::<f64>(k, code, from, res, work),
        2 => dispatch::execute_typed::<Vec3>(k, code, from, res, work),
        _ => dispatch::execute_typed::<Mat4>(k, code, from, res, work),
    }
}

// Where an instruction's operands stand, and where its result goes.
#[derive(Clone, Copy)]
pub struct Place {
    pub from: usize,
    pub result: usize,
}

// Of the instruction at `at`: it carries its result's address, or its result takes the next words.
fn locate(code: &[u8], at: usize, addressed: bool, next: usize) -> Place
    requires { at + 2 + result_bytes (version_by addressed) ≤ length code.now }
    ensures { (result.from ≡ at + 2 + result_bytes (version_by addressed)) × (result.result ≡ cond addressed (u16 code.now (at + 2)) next) }
{
    if addressed {
        let result = base::u16_at(code, at + 2);
        Place {
            from: at + 4,
            result,
        }
    } else {
        Place {
            from: at + 2,
            result: next,
        }
    }
}

// All instructions, from behind the header on, where the arguments take the first `first` words. One loop for both versions:
// with a loop for each, `execute` would have two callers, and a function of two callers is seldom inlined.
pub fn execute_all(code: &[u8], addressed: bool, count: usize, first: usize, work: &mut [u64])
    requires { Instructions (version_by addressed) code.now count first work.old }
    ensures { work.new ≡ after_all (read_instructions (version_by addressed) count code.now header_length (argument_words first)) work.old }
{
    let mut at = HEADER_LENGTH;
    let mut next = first;
    for _ in 0..count {
        let place = locate(code, at, addressed, next);
        let extent = execute(code, at, place.from, place.result, work);
        at = place.from + extent.bytes;
        next = place.result + extent.words;
    }
}
