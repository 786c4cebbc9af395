// The verdict on a graph table.
#![tactic(auto)]

ghost use Rattle.std.specs.Prelude.{◌≡◌, ◌+◌, ◌^◌, ◌<◌, ◌≤◌, [], length, Ok};
ghost use Rattle.base.specs.Limits.{function_limit, node_limit, slot_limit};
ghost use Rattle.base.specs.Outcome.{ok};
ghost use Rattle.base.specs.Refusals.{outcome};
ghost use Rattle.graph.specs.Judge.{loop_free, judge, judge_all, verdict};
ghost use Rattle.reader.specs.Layout.{node_count, nodes_place, function_at, function_end, functions_at, known};
ghost use Rattle.reader.specs.Find.{ReadsFunction, ReadsFunctions, ReadsStarts};
ghost use Rattle.resolver.specs.Slots.{PlacesAre};
ghost use Rattle.checker.specs.Answers.{Judged};
ghost use Rattle.checker.specs.Scenes.{judged};
ghost use Rattle.checker.specs.Slots.{SlotsReady, Filled};

use base::{FUNCTION_LIMIT, Fault, NODE_LIMIT, Refusal, SLOT_LIMIT, u16_at};
use scene::Scene;

mod names;
mod scene;
mod types;

pub use scene::Head;
pub use types::Want;

// ---- loops

impl Scene<'_> {
    // No node lies on a loop.
    fn loop_free(&self, targets: &[u16; SLOT_LIMIT]) -> Result<(), Refusal>
        requires { SlotsReady self.now.s.now self.now.head targets.now }
        ensures { outcome result ≡ loop_free (judged self.now) }
    {
        let count = self.head.count;
        if order::orderable(targets, count) {
            return Ok(());
        }
        match order::first_on_loop(targets, count) {
            Some(i) => Err(Fault::Loop.at(self.node(i))),
            None => Ok(()),
        }
    }
}

// ---- a function, and the table

// The function at `place`, after those at the first k places of `starts`; `targets` is room to work in. One that is
// good leaves the places of its nodes.
fn judge_function(
    s: &[u8],
    starts: &[usize; FUNCTION_LIMIT],
    k: usize,
    place: usize,
    places: &mut [u32; NODE_LIMIT],
    targets: &mut [u16; SLOT_LIMIT],
) -> Result<(), Refusal>
    requires { ReadsStarts s.now starts.now k × (k ≤ function_limit) × ReadsFunction s.now place × (length s.now < 2 ^ 32) × (length places.old ≡ node_limit) × (length targets.old ≡ slot_limit) }
    ensures value { outcome result ≡ judge (known s.now starts.now k) (function_at s.now place) }
    ensures filled { result ≡ Ok tt → Filled s.now place places.new targets.new }
{
    if reader::find_function(s, starts, k, u16_at(s, place)).is_some() {
        return Err(Fault::Repeated.at(place));
    }
    let first = reader::nodes_place(s, place);
    let count = u16_at(s, place + 4);
    resolver::places(s, first, count, places);
    let head = Head {
        place,
        first,
        count,
    };
    let scene = Scene {
        s,
        starts,
        k,
        head,
        places,
    };
    scene.fresh_nodes()?;
    scene.calls_good()?;
    scene.outputs_good()?;
    resolver::resolve(s, scene.places, count, targets);
    scene.nodes_good(targets)?;
    scene.loop_free(targets)
}

// Where the function at `at` ends, whose nodes have these places.
fn function_end(s: &[u8], at: usize, places: &[u32; NODE_LIMIT]) -> usize
    requires { ReadsFunction s.now at × PlacesAre s.now (nodes_place s.now at) (node_count s.now at) places.now }
    ensures { result ≡ function_end s.now at }
{
    let count = u16_at(s, at + 4);
    if count == 0 {
        reader::nodes_place(s, at)
    } else {
        reader::node_end(s, places[count - 1] as usize)
    }
}

// The functions of a table that was read, one after another from `first` on.
fn judge_all(s: &[u8], first: usize, count: usize) -> Result<(), Refusal>
    requires { ReadsFunctions count s.now first × (count ≤ function_limit) × (length s.now < 2 ^ 32) }
    ensures { outcome result ≡ judge_all [] (functions_at count s.now first) }
{
    let mut starts = [0usize; FUNCTION_LIMIT];
    let mut places = [0u32; NODE_LIMIT];
    let mut targets = [0u16; SLOT_LIMIT];
    let mut at = first;
    for k in 0..count {
        judge_function(s, &starts, k, at, &mut places, &mut targets)?;
        starts[k] = at;
        at = function_end(s, at, &places);
    }
    Ok(())
}

// Accepted with the function count, or refused.
pub type Verdict = Result<usize, Refusal>;

// The verdict on a table.
pub fn check(table: &[u8]) -> Verdict
    ensures value { outcome result ≡ verdict table.now }
    ensures judged { Judged table.now (outcome result) }
{
    reader::read_table(table)?;
    let count = usize::from(table[5]);
    judge_all(table, reader::HEADER, count)?;
    Ok(count)
}
