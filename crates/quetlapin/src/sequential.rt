// A function's list in version 1: compiled, and compiled and run.
ghost use Rattle.std.specs.Prelude.{◌≡◌, Ok};
ghost use Rattle.base.specs.Refusals.{outcome};
ghost use Rattle.lowering.specs.Answers.{compiled, evaluated};
ghost use Rattle.lowering.specs.Demand3.{Demand3};
ghost use Rattle.quetlapin.specs.Compiling as compiling;
ghost use Rattle.quetlapin.specs.Answers.{Answered};

use super::check_lent;
use super::lookup::{Found, find};
use base::Refusal;

// The list of version 1.
pub fn compile_sequential(table: &[u8], id: u16, code: &mut [u8]) -> Result<usize, Refusal>
    ensures value { outcome result ≡ compiling.answer_of (compiled table.now id 1 code.old) }
    ensures code_after { code.new ≡ compiling.code_after code.old (compiled table.now id 1 code.old) }
{
    let mut function = Found::NONE;
    find(table, id, &mut function)?;
    function.check_limits()?;
    function.check_room(code.len())?;
    let sizes = function.sizes;
    compiler::compile(
        table,
        &function.starts,
        &function.sums,
        function.position,
        sizes,
        code,
    );
    Ok(sizes.code)
}

// Compiles a function in version 1 and runs its code on arguments. Every refusal is judged before any byte or word is
// written, so that neither the compiler nor the runner refuses then.
pub fn evaluate_sequential(
    table: &[u8],
    id: u16,
    arguments: &[u64],
    code: &mut [u8],
    work: &mut [u64],
    out: &mut [u64],
) -> Result<usize, Refusal>
    ensures answered { Answered (evaluated table.now id 1 arguments.now code.old work.old out.old)
        code.old work.old out.old code.new work.new out.new (outcome result) }
    ensures demand3 { Demand3 (λ n. result ≡ Ok n) table.now id 1 arguments.now code.old work.old out.old
        code.new work.new out.new }
{
    let mut found = Found::NONE;
    find(table, id, &mut found)?;
    found.check_limits()?;
    found.check_room(code.len())?;
    let sizes = found.sizes;
    check_lent(sizes, sizes.words, arguments, work.len(), out.len())?;
    compiler::compile(
        table,
        &found.starts,
        &found.sums,
        found.position,
        sizes,
        code,
    );
    runner::run(&code[..sizes.code], arguments, work, out)
}
