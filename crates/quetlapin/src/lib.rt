// The driver: every entry point, none of which asks anything of its arguments. In each call a table is checked once, its
// functions are found once and summed once. For other programs an answer is one number, a refusal's number times 2^32
// and its place.
#![tactic(auto)]

ghost use Rattle.std.specs.Prelude.{◌≡◌, ℕ, Ok, ◌<◌, length};
ghost use Rattle.base.specs.Outcome.{ok, fault};
ghost use Rattle.std.proofs.Math.Option.{none};
ghost use Rattle.base.specs.Refusals.{outcome, number};
ghost use Rattle.bytecode.specs.Version.{version_of};
ghost use Rattle.graph.specs.Judge.{verdict};
ghost use Rattle.lowering.specs.Answers.{compilable, compiled, evaluated};
ghost use Rattle.lowering.specs.Demand3.{Demand3};
ghost use Rattle.bytecode.specs.Answers.{ran};
ghost use Rattle.reordering.specs.AnyOrder.{AnyOrder};
ghost use Rattle.points.specs.Points.{ran_points};
ghost use Rattle.points.specs.Demand3.{Demand3Points};
ghost use Rattle.acceptance.specs.Answers.{judged_placement};
ghost use Rattle.acceptance.specs.Promise.{Promise};
ghost use Rattle.quetlapin.specs.Compiling as compiling;
ghost use Rattle.quetlapin.specs.Compiling.{code_after};
ghost use Rattle.quetlapin.specs.Measures.{named, measured_of, up_to, count_of, operation_count, word_count, code_count};
ghost use Rattle.quetlapin.specs.Answers.{lent, Answered};
ghost use Rattle.quetlapin.specs.Numbers.{number_of, Tellable, Told, JudgeTold, code_length, RunAnswered, EvaluationAnswered};

use base::{Fault, OPERATION_LIMIT, Refusal, WORD_LIMIT};
use lookup::Found;
use sums::Sizes;

mod judging;
mod lookup;
mod reusing;
mod sequential;

// ---- measures

// The sizes of the function of an id, which can be compiled: the table's refusals, then 14, 15 and 16.
pub fn measure(table: &[u8], id: u16) -> Result<Sizes, Refusal>
    ensures { outcome result ≡ measured_of (compilable table.now id 1) }
{
    let mut function = Found::NONE;
    lookup::find(table, id, &mut function)?;
    function.check_limits()?;
    Ok(function.sizes)
}

// A count within its limit.
fn up_to(limit: usize, n: usize) -> Option<usize>
    ensures { result ≡ up_to limit n }
{
    (n <= limit).then_some(n)
}

// The operations of the function of an id, unless they are above their limit: the table's refusals, then 14. This and `words` are three
// lines each under a clause of their own: one function of both would be told the field and the limit, and be no shorter.
pub fn operations(table: &[u8], id: u16) -> Result<Option<usize>, Refusal>
    ensures { outcome result ≡ count_of operation_count (named table.now id) }
{
    let mut found = Found::NONE;
    lookup::find(table, id, &mut found)?;
    Ok(up_to(OPERATION_LIMIT, found.sizes.operations))
}

// The words of the function of an id.
pub fn words(table: &[u8], id: u16) -> Result<Option<usize>, Refusal>
    ensures { outcome result ≡ count_of word_count (named table.now id) }
{
    let mut found = Found::NONE;
    lookup::find(table, id, &mut found)?;
    Ok(up_to(WORD_LIMIT, found.sizes.words))
}

// The length of the code of the function of an id; none where its operations or its words are above their limits.
pub fn code_length(table: &[u8], id: u16) -> Result<Option<usize>, Refusal>
    ensures { outcome result ≡ count_of code_count (named table.now id) }
{
    let mut found = Found::NONE;
    lookup::find(table, id, &mut found)?;
    let sizes = found.sizes;
    Ok(base::within_limits(sizes.operations, sizes.words).then_some(sizes.code))
}

// ---- the compiler

// A version that there is not: the table's refusals and 14 come first.
fn unknown_version(table: &[u8], id: u16) -> Refusal
    ensures { (n : ℕ) → version_of n ≡ none → compilable table.now id n ≡ fault (number result.fault) result.place }
{
    let mut found = Found::NONE;
    match lookup::find(table, id, &mut found) {
        Ok(_) => Fault::ListVersion.at(0),
        Err(refusal) => refusal,
    }
}

// The board list of the function of an id, in a version: its code's length, or the refusal.
pub fn compile(table: &[u8], id: u16, version: u16, code: &mut [u8]) -> Result<usize, Refusal>
    ensures value { outcome result ≡ compiling.answer_of (compiled table.now id version code.old) }
    ensures code_after { code.new ≡ compiling.code_after code.old (compiled table.now id version code.old) }
{
    match version {
        1 => sequential::compile_sequential(table, id, code),
        2 => reusing::compile_reusing(table, id, code),
        _ => Err(unknown_version(table, id)),
    }
}

// ---- from table to output words

// What a list with these sizes and words asks of what is lent to its run: 19, 20, 21.
fn check_lent(
    sizes: Sizes,
    words: usize,
    arguments: &[u64],
    work: usize,
    out: usize,
) -> Result<(), Refusal>
    ensures { outcome result ≡ lent sizes words arguments.now work out }
{
    if arguments.len() != sizes.arguments {
        return Err(Fault::ArgumentCount.at(0));
    }
    if !runner::arguments_allowed(arguments) {
        return Err(Fault::Argument.at(0));
    }
    if work < words || out < sizes.outputs {
        return Err(Fault::Room.at(0));
    }
    Ok(())
}

// Compiles a function in a version and runs its code on arguments.
pub fn evaluate(
    table: &[u8],
    id: u16,
    version: u16,
    arguments: &[u64],
    code: &mut [u8],
    work: &mut [u64],
    out: &mut [u64],
) -> Result<usize, Refusal>
    ensures answered { Answered (evaluated table.now id version arguments.now code.old work.old out.old)
        code.old work.old out.old code.new work.new out.new (outcome result) }
    ensures demand3 { Demand3 (λ n. result ≡ Ok n) table.now id version arguments.now code.old work.old out.old
        code.new work.new out.new }
{
    match version {
        1 => sequential::evaluate_sequential(table, id, arguments, code, work, out),
        2 => reusing::evaluate_reusing(table, id, arguments, code, work, out),
        _ => Err(unknown_version(table, id)),
    }
}

// ---- a router's list

// Whether it may stand in place of ours: its instruction count, or the refusal.
pub fn judge_placement(
    table: &[u8],
    id: u16,
    code: &[u8],
    numbers: &[u16],
) -> Result<usize, Refusal>
    ensures value { outcome result ≡ judged_placement table.now id code.now numbers.now }
    ensures promise { Promise (λ n. result ≡ Ok n) (λ n p. outcome result ≡ fault n p) table.now id code.now numbers.now }
{
    let mut found = Found::NONE;
    lookup::find(table, id, &mut found)?;
    found.check_limits()?;
    judging::judge_proposed(table, &found, code, numbers)
}

// ---- for other programs

// An answer as one number.
fn tell(answer: Result<usize, Refusal>) -> u64
    requires { Tellable (outcome answer) }
    ensures { result ≡ number_of (outcome answer) }
{
    match answer {
        Ok(n) => n as u64,
        Err(refusal) => u64::from(refusal.fault.number()) * 0x1_0000_0000 + refusal.place as u64,
    }
}

// Checks a table: the function count, or a refusal.
pub fn ifg_check(table: &[u8]) -> u64
    ensures { Told (verdict table.now) result }
{
    tell(checker::check(table))
}

// Compiles a function in version 1: the code's length, or a refusal, which leaves every byte of the buffer.
pub fn ifg_compile(table: &[u8], id: u16, code: &mut [u8]) -> u64
    ensures told { Told (code_length (compiled table.now id 1 code.old)) result }
    ensures code_after { code.new ≡ code_after code.old (compiled table.now id 1 code.old) }
{
    tell(sequential::compile_sequential(table, id, code))
}

// In the version that is named.
pub fn ifg_compile_version(table: &[u8], id: u16, version: u16, code: &mut [u8]) -> u64
    ensures told { Told (code_length (compiled table.now id version code.old)) result }
    ensures code_after { code.new ≡ code_after code.old (compiled table.now id version code.old) }
{
    tell(compile(table, id, version, code))
}

// Runs a code: the count of output words, or a refusal.
pub fn ifr_run(code: &[u8], arguments: &[u64], work: &mut [u64], out: &mut [u64]) -> u64
    ensures run_answered { RunAnswered (ran code.now arguments.now work.old out.old) work.old out.old work.new out.new result }
    ensures any_order { AnyOrder (λ n. result ≡ n) code.now arguments.now work.old out.old work.new out.new }
{
    tell(runner::run(code, arguments, work, out))
}

// Runs a code at many points, their arguments and their output words end to end: the count of all output words, or a
// refusal.
pub fn ifr_run_points(
    code: &[u8],
    count: u64,
    arguments: &[u64],
    work: &mut [u64],
    out: &mut [u64],
) -> u64
    ensures run_answered { RunAnswered (ran_points code.now count arguments.now work.old out.old) work.old out.old work.new out.new result }
    ensures demand3points { Demand3Points (λ n. result ≡ n) code.now count arguments.now work.old out.old work.new out.new }
{
    tell(points::run_points(code, count as usize, arguments, work, out))
}

// Compiles a function in version 1 and runs its code on arguments: the count of output words, or a refusal, which leaves every byte
// and word of the buffers.
pub fn ifg_evaluate(
    table: &[u8],
    id: u16,
    arguments: &[u64],
    code: &mut [u8],
    work: &mut [u64],
    out: &mut [u64],
) -> u64
    ensures evaluation_answered { EvaluationAnswered (evaluated table.now id 1 arguments.now code.old work.old out.old)
        code.old work.old out.old code.new work.new out.new result }
    ensures demand3 { Demand3 (λ n. result ≡ n) table.now id 1 arguments.now code.old work.old out.old
        code.new work.new out.new }
{
    tell(sequential::evaluate_sequential(table, id, arguments, code, work, out))
}

// In the version that is named.
pub fn ifg_evaluate_version(
    table: &[u8],
    id: u16,
    version: u16,
    arguments: &[u64],
    code: &mut [u8],
    work: &mut [u64],
    out: &mut [u64],
) -> u64
    ensures evaluation_answered { EvaluationAnswered (evaluated table.now id version arguments.now code.old work.old out.old)
        code.old work.old out.old code.new work.new out.new result }
    ensures demand3 { Demand3 (λ n. result ≡ n) table.now id version arguments.now code.old work.old out.old
        code.new work.new out.new }
{
    tell(evaluate(table, id, version, arguments, code, work, out))
}

// Judges a router's list of version 2 for a function, with the number of the instruction of version 1 that each of its instructions
// carries out: its instruction count, or a refusal.
pub fn ifg_judge_placement(table: &[u8], id: u16, code: &[u8], numbers: &[u16]) -> u64
    ensures told { JudgeTold (judged_placement table.now id code.now numbers.now) result }
    ensures promise { Promise (λ n. JudgeTold (ok n) result) (λ n p. JudgeTold (fault n p) result) table.now id code.now numbers.now }
{
    tell(judge_placement(table, id, code, numbers))
}
