// A layer's points in one call: the code is checked once, then run at each point.
#![tactic(auto)]

ghost use Rattle.std.specs.Prelude.{Ok, length, ◌≡◌};
ghost use Rattle.base.specs.Refusals.{outcome};
ghost use Rattle.runner.specs.Runs.{Answered, Refused18};
ghost use Rattle.points.specs.Points.{ran_points};
ghost use Rattle.points.specs.Runs.{RunnablePoints, AllRan};
ghost use Rattle.points.specs.Demand3.{Demand3Points};

use base::{Fault, POINT_LIMIT, Refusal};
use runner::Counts;

// Runs a code that was checked at each point: its arguments follow those of the point before it, its output words too. Not in
// chunks: no words have none, and a code without arguments runs at each point all the same.
fn run_each(
    code: &[u8],
    counts: Counts,
    count: usize,
    arguments: &[u64],
    work: &mut [u64],
    out: &mut [u64],
)
    requires { RunnablePoints code.now counts count arguments.now (length work.old) (length out.old) }
    ensures { AllRan code.now counts count arguments.now work.old out.old work.new out.new }
{
    let mut from = 0;
    let mut to = 0;
    for _ in 0..count {
        let next = from + counts.arguments;
        let end = to + counts.outputs;
        runner::run_checked(
            code,
            counts,
            &arguments[from..next],
            work,
            &mut out[to..end],
        );
        from = next;
        to = end;
    }
}

// Runs a code at `count` points: 18, 22, 19, 20 and 21 are judged before any word is written.
pub fn run_points(
    code: &[u8],
    count: usize,
    arguments: &[u64],
    work: &mut [u64],
    out: &mut [u64],
) -> Result<usize, Refusal>
    ensures answered { Answered (ran_points code.now count arguments.now work.old out.old) work.old out.old work.new out.new (outcome result) }
    ensures refused18 { Refused18 code.now (outcome result) }
    ensures demand3points { Demand3Points (λ n. result ≡ Ok n) code.now count arguments.now work.old out.old work.new out.new }
{
    let Some(counts) = runner::check_code(code) else {
        return Err(Fault::Malformed.at(0));
    };
    if POINT_LIMIT < count {
        return Err(Fault::PointCount.at(0));
    }
    if arguments.len() != count * counts.arguments {
        return Err(Fault::ArgumentCount.at(0));
    }
    if !runner::arguments_allowed(arguments) {
        return Err(Fault::Argument.at(0));
    }
    if work.len() < counts.words {
        return Err(Fault::Room.at(0));
    }
    let words = count * counts.outputs;
    if out.len() < words {
        return Err(Fault::Room.at(0));
    }
    run_each(code, counts, count, arguments, work, out);
    Ok(words)
}
