// The entry points as C calls them: each is the library's of that name, under the same clauses.
#![tactic(auto)]

ghost use Rattle.std.specs.Prelude.{◌≡◌};
ghost use Rattle.base.specs.Outcome.{ok, fault};
ghost use Rattle.graph.specs.Judge.{verdict};
ghost use Rattle.lowering.specs.Answers.{compiled, evaluated};
ghost use Rattle.lowering.specs.Demand3.{Demand3};
ghost use Rattle.bytecode.specs.Answers.{ran};
ghost use Rattle.reordering.specs.AnyOrder.{AnyOrder};
ghost use Rattle.points.specs.Points.{ran_points};
ghost use Rattle.points.specs.Demand3.{Demand3Points};
ghost use Rattle.acceptance.specs.Answers.{judged_placement};
ghost use Rattle.acceptance.specs.Promise.{Promise};
ghost use Rattle.quetlapin.specs.Compiling.{code_after};
ghost use Rattle.quetlapin.specs.Numbers.{Told, JudgeTold, code_length, RunAnswered, EvaluationAnswered};

// Checks a table: the function count, or a refusal.
#[unsafe(no_mangle)]
pub extern "C" fn ifg_check(table: &[u8]) -> u64
    ensures { Told (verdict table.now) result }
{
    quetlapin::ifg_check(table)
}

// Compiles a function in version 1: the code's length, or a refusal, which leaves every byte of the buffer.
#[unsafe(no_mangle)]
pub extern "C" fn ifg_compile(table: &[u8], id: u16, code: &mut [u8]) -> u64
    ensures told { Told (code_length (compiled table.now id 1 code.old)) result }
    ensures code_after { code.new ≡ code_after code.old (compiled table.now id 1 code.old) }
{
    quetlapin::ifg_compile(table, id, code)
}

// In the version that is named.
#[unsafe(no_mangle)]
pub extern "C" fn ifg_compile_version(table: &[u8], id: u16, version: u16, code: &mut [u8]) -> u64
    ensures told { Told (code_length (compiled table.now id version code.old)) result }
    ensures code_after { code.new ≡ code_after code.old (compiled table.now id version code.old) }
{
    quetlapin::ifg_compile_version(table, id, version, code)
}

// Runs a code: the count of output words, or a refusal.
#[unsafe(no_mangle)]
pub extern "C" fn ifr_run(code: &[u8], arguments: &[u64], work: &mut [u64], out: &mut [u64]) -> u64
    ensures run_answered { RunAnswered (ran code.now arguments.now work.old out.old) work.old out.old work.new out.new result }
    ensures any_order { AnyOrder (λ n. result ≡ n) code.now arguments.now work.old out.old work.new out.new }
{
    quetlapin::ifr_run(code, arguments, work, out)
}

// Runs a code at many points, their arguments and their output words end to end: the count of all output words, or a
// refusal.
#[unsafe(no_mangle)]
pub extern "C" fn ifr_run_points(
    code: &[u8],
    count: u64,
    arguments: &[u64],
    work: &mut [u64],
    out: &mut [u64],
) -> u64
    ensures run_answered { RunAnswered (ran_points code.now count arguments.now work.old out.old) work.old out.old work.new out.new result }
    ensures demand3points { Demand3Points (λ n. result ≡ n) code.now count arguments.now work.old out.old work.new out.new }
{
    quetlapin::ifr_run_points(code, count, arguments, work, out)
}

// Compiles a function in version 1 and runs its code on arguments: the count of output words, or a refusal, which leaves every byte
// and word of the buffers.
#[unsafe(no_mangle)]
pub extern "C" fn ifg_evaluate(
    table: &[u8],
    id: u16,
    arguments: &[u64],
    code: &mut [u8],
    work: &mut [u64],
    out: &mut [u64],
) -> u64
    ensures evaluation_answered { EvaluationAnswered (evaluated table.now id 1 arguments.now code.old work.old out.old)
        code.old work.old out.old code.new work.new out.new result }
    ensures demand3 { Demand3 (λ n. result ≡ n) table.now id 1 arguments.now code.old work.old out.old
        code.new work.new out.new }
{
    quetlapin::ifg_evaluate(table, id, arguments, code, work, out)
}

// In the version that is named.
#[unsafe(no_mangle)]
pub extern "C" fn ifg_evaluate_version(
    table: &[u8],
    id: u16,
    version: u16,
    arguments: &[u64],
    code: &mut [u8],
    work: &mut [u64],
    out: &mut [u64],
) -> u64
    ensures evaluation_answered { EvaluationAnswered (evaluated table.now id version arguments.now code.old work.old out.old)
        code.old work.old out.old code.new work.new out.new result }
    ensures demand3 { Demand3 (λ n. result ≡ n) table.now id version arguments.now code.old work.old out.old
        code.new work.new out.new }
{
    quetlapin::ifg_evaluate_version(table, id, version, arguments, code, work, out)
}

// Judges a router's list of version 2 for a function, with the number of the instruction of version 1 that each of its instructions
// carries out: its instruction count, or a refusal.
#[unsafe(no_mangle)]
pub extern "C" fn ifg_judge_placement(table: &[u8], id: u16, code: &[u8], numbers: &[u16]) -> u64
    ensures told { JudgeTold (judged_placement table.now id code.now numbers.now) result }
    ensures promise { Promise (λ n. JudgeTold (ok n) result) (λ n p. JudgeTold (fault n p) result) table.now id code.now numbers.now }
{
    quetlapin::ifg_judge_placement(table, id, code, numbers)
}
