// A function's list in version 2. Its words are placed before anything is written: only then is it known whether they pass the limit.
// Compiling and evaluating begin alike, here and in version 1: the arrays of the first half are lent to the second, so that a function
// of the first half alone would have to hand them out.
ghost use Rattle.std.specs.Prelude.{◌≡◌, ◌≤◌, ℕ, length, replicate, Ok};
ghost use Rattle.base.specs.Limits.{operation_limit, placed_limit, port_word_limit};
ghost use Rattle.base.specs.Refusals.{outcome};
ghost use Rattle.sums.specs.Capped.{byte_cap, operation_cap};
ghost use Rattle.lowering.specs.Answers.{compiled, evaluated};
ghost use Rattle.lowering.specs.Demand3.{Demand3};
ghost use Rattle.quetlapin.specs.Compiling as compiling;
ghost use Rattle.quetlapin.specs.Measures.{FoundAt, Laid, placed_length};
ghost use Rattle.quetlapin.specs.Answers.{Answered};

use super::check_lent;
use super::lookup::{Found, find};
use base::{Fault, HEADER_LENGTH, PLACED_LIMIT, Refusal};
use compiler::Layout;
use sums::Sizes;

// The length of the code of version 2: each instruction has an address more.
fn placed_length(sizes: Sizes) -> usize
    requires { (sizes.bytes ≤ byte_cap) × (sizes.instructions ≤ operation_cap) × (sizes.outputs ≤ port_word_limit) }
    ensures { result ≡ placed_length sizes }
{
    HEADER_LENGTH + sizes.bytes + 2 * sizes.instructions + 2 * sizes.outputs
}

// Places the words of the list of version 2 of a function that was found: so many, or 16, or 17 where its code does not
// fit so many bytes.
fn lay_out(
    table: &[u8],
    found: &Found,
    room: usize,
    layout: &mut Layout,
    places: &mut [u16; PLACED_LIMIT],
) -> Result<usize, Refusal>
    requires { ((c : ℕ) × FoundAt table.now c found.now) × (found.now.sizes.operations ≤ operation_limit) × (places.old ≡ replicate placed_limit 0) }
    ensures { Laid table.now found.now room layout.new places.new result }
{
    let sizes = found.sizes;
    let position = found.position;
    let Some(words) = compiler::lay_out(
        table,
        &found.starts,
        &found.sums,
        position,
        sizes,
        layout,
        places,
    ) else {
        return Err(Fault::Words.at(0));
    };
    if room < placed_length(sizes) {
        return Err(Fault::CodeRoom.at(0));
    }
    Ok(words)
}

// The list of version 2.
pub fn compile_reusing(table: &[u8], id: u16, code: &mut [u8]) -> Result<usize, Refusal>
    ensures value { outcome result ≡ compiling.answer_of (compiled table.now id 2 code.old) }
    ensures code_after { code.new ≡ compiling.code_after code.old (compiled table.now id 2 code.old) }
{
    let mut found = Found::NONE;
    find(table, id, &mut found)?;
    found.check_operations()?;
    let sizes = found.sizes;
    let mut layout = Layout::new();
    let mut places = [0; PLACED_LIMIT];
    let words = lay_out(table, &found, code.len(), &mut layout, &mut places)?;
    compiler::compile_placed(
        table,
        &found.starts,
        found.position,
        sizes,
        words,
        &layout,
        &mut places,
        code,
    );
    Ok(placed_length(sizes))
}

// In version 2.
pub fn evaluate_reusing(
    table: &[u8],
    id: u16,
    arguments: &[u64],
    code: &mut [u8],
    work: &mut [u64],
    out: &mut [u64],
) -> Result<usize, Refusal>
    ensures answered { Answered (evaluated table.now id 2 arguments.now code.old work.old out.old)
        code.old work.old out.old code.new work.new out.new (outcome result) }
    ensures demand3 { Demand3 (λ n. result ≡ Ok n) table.now id 2 arguments.now code.old work.old out.old
        code.new work.new out.new }
{
    let mut found = Found::NONE;
    find(table, id, &mut found)?;
    found.check_operations()?;
    let sizes = found.sizes;
    let mut layout = Layout::new();
    let mut places = [0; PLACED_LIMIT];
    let words = lay_out(table, &found, code.len(), &mut layout, &mut places)?;
    check_lent(sizes, words, arguments, work.len(), out.len())?;
    compiler::compile_placed(
        table,
        &found.starts,
        found.position,
        sizes,
        words,
        &layout,
        &mut places,
        code,
    );
    runner::run(&code[..placed_length(sizes)], arguments, work, out)
}
