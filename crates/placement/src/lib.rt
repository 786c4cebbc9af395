// The places of values whose words are used again.
#![tactic(auto)]

ghost use Rattle.std.specs.Prelude.{◌≡◌, List, ℕ, ◌+◌, ◌<◌, ◌≤◌, length, replicate};
ghost use Rattle.std.proofs.lemmas.List.Edits.{sets};
ghost use Rattle.base.specs.Limits.{port_limit, operation_limit, word_limit, value_limit, placed_limit};
ghost use Rattle.bytecode.specs.Run.{BoardList};
ghost use Rattle.placement.specs.Arrays.{Wide, Widths, Lasting};
ghost use Rattle.placement.specs.Record.{Lowest, Looked, Bounds, Taken, Begun, Placement};

use base::{PLACED_LIMIT, VALUE_LIMIT, WORD_LIMIT};

// ---- the record: for each word the instruction before which it is no longer held, so that nothing has to be released

const BLOCK: usize = 64;

const BLOCKS: usize = WORD_LIMIT / BLOCK;

const BOUND_LIMIT: usize = VALUE_LIMIT * BLOCKS;
// Up to this many words are searched one by one.
const FEW: usize = 64;
// Behind all instructions.
const NEVER: u16 = 0xFFFF;

// A gap of `width` words that is wanted at instruction k.
#[derive(Clone, Copy)]
struct Wanted {
    k: u16,
    width: usize,
    ghost some: { 1 ≤ width },
    ghost few: { width ≤ value_limit },
}

// The lowest word from which such words are free. The words from `high` on are free.
fn scan_words(until: &[u16; WORD_LIMIT], wanted: Wanted, high: usize) -> usize
    requires { high ≤ word_limit }
    ensures { Lowest until.now wanted.k wanted.width 0 high result }
{
    let Wanted { k, width } = wanted;
    let mut start = 0;
    for at in 0..high {
        if k < until[at] {
            start = at + 1;
        } else if at + 1 == start + width {
            return start;
        }
    }
    start
}

// ---- with many words held: by blocks, each with an instruction before which no gap starts there. As words that are held are
// not given away, such a bound stays one.

// What a block has: a gap that starts there, or a bound. Neither is an error, so that this is no `Result`.
#[derive(Clone, Copy)]
enum Look {
    Gap(usize),
    Full(u16),
}

fn look_in(until: &[u16; WORD_LIMIT], wanted: Wanted, from: usize, high: usize) -> Look
    requires { (high ≤ word_limit) × (from ≤ high) }
    ensures { Looked until.now wanted.k wanted.width from high result }
{
    let Wanted { k, width } = wanted;
    let edge = from + BLOCK;
    let mut bound = NEVER;
    let mut start = from;
    for at in from..high {
        let stop = until[at];
        if k < stop {
            bound = bound.min(stop);
            start = at + 1;
            if edge <= start {
                return Look::Full(bound);
            }
        } else if at - start + 1 == width {
            return Look::Gap(start);
        }
    }
    Look::Gap(start)
}

// What is known of the record: for each width and block a bound, and the highest word ever held plus one. The words from there on
// are free. The record stands beside it and not in it, as it is lent, and no ghost field may speak of what is lent.
#[derive(Drop)]
struct Known {
    low: [u16; BOUND_LIMIT],
    high: usize,
    ghost room: { high ≤ word_limit },
}

impl Known {
    fn search_blocks(&mut self, until: &[u16; WORD_LIMIT], wanted: Wanted) -> usize
        requires { Bounds until.now self.old.low self.old.high }
        ensures { Lowest until.now wanted.k wanted.width 0 self.old.high result × Bounds until.now self.new.low self.old.high × (self.new.high ≡ self.old.high) }
    {
        let row = (wanted.width - 1) * BLOCKS;
        for block in 0..self.high.div_ceil(BLOCK) {
            if self.low[row + block] <= wanted.k {
                match look_in(until, wanted, block * BLOCK, self.high) {
                    Look::Gap(at) => {
                        return at;
                    }
                    Look::Full(bound) => {
                        self.low[row + block] = bound;
                    }
                }
            }
        }
        self.high
    }

    fn lowest(&mut self, until: &[u16; WORD_LIMIT], wanted: Wanted) -> usize
        requires { Bounds until.now self.old.low self.old.high }
        ensures { Lowest until.now wanted.k wanted.width 0 self.old.high result × Bounds until.now self.new.low self.old.high × (self.new.high ≡ self.old.high) }
    {
        if self.high <= FEW {
            scan_words(until, wanted, self.high)
        } else {
            self.search_blocks(until, wanted)
        }
    }

    // A value takes the lowest gap, unless that passes the limit. It is held behind its own instruction in any case.
    fn place(&mut self, until: &mut [u16; WORD_LIMIT], wanted: Wanted, last: u16) -> Option<usize>
        requires { (wanted.k < operation_limit) × (length until.old ≡ word_limit) × Bounds until.old self.old.low self.old.high }
        ensures { Taken until.old until.new self.new.low self.new.high wanted.k wanted.width last self.old.high result }
    {
        let at = self.lowest(until, wanted);
        let end = at + wanted.width;
        if WORD_LIMIT < end {
            return None;
        }
        hold(until, at, wanted.width, last.max(wanted.k + 1));
        self.high = self.high.max(end);
        Some(at)
    }
}

// ---- values

// Holds words until `stop`.
fn hold(until: &mut [u16; WORD_LIMIT], at: usize, width: usize, stop: u16)
    requires { at + width ≤ word_limit }
    ensures { until.new ≡ sets until.old at (replicate width stop) }
{
    until[at..at + width].fill(stop);
}

// The inputs take the first words; the answer is how many.
fn place_inputs(
    widths: &[u8; PLACED_LIMIT],
    m: usize,
    until: &mut [u16; WORD_LIMIT],
    place: &mut [u16; PLACED_LIMIT],
) -> usize
    requires { (m ≤ port_limit) × (until.old ≡ replicate word_limit 0) × (length place.old ≡ placed_limit) }
    ensures { Begun widths.now place.old m until.new place.new result }
{
    let mut at = 0;
    for v in 0..m {
        let w = usize::from(widths[v]);
        hold(until, at, w, place[v]);
        place[v] = at as u16;
        at += w;
    }
    at
}

// The m inputs and the first n results of a list. `place` holds for each value the instruction before which it is no longer
// held, and then its place. The answer is the highest word ever held plus one, unless it passes the limit. Widths and places stand
// in two arrays, as structs of a byte and two would take a third more of the stack.
pub fn place_all(
    widths: &[u8; PLACED_LIMIT],
    m: usize,
    n: usize,
    until: &mut [u16; WORD_LIMIT],
    place: &mut [u16; PLACED_LIMIT],
) -> Option<usize>
    requires { (m ≤ port_limit) × (n ≤ operation_limit) × Wide widths.now (m + n) × (until.old ≡ replicate word_limit 0) × (length place.old ≡ placed_limit) }
    ensures by_index { (inputs : List ℕ) (b : BoardList) → n ≤ length b.instructions → Widths widths.now m inputs b → Lasting place.old m inputs b → Placement m n place.new until.new result inputs b }
    ensures place_len { length place.new ≡ placed_limit }
{
    let high = place_inputs(widths, m, until, place);
    let mut known = Known {
        low: [0u16; BOUND_LIMIT],
        high,
    };
    for k in 0..n {
        let wanted = Wanted {
            k: k as u16,
            width: usize::from(widths[m + k]),
        };
        place[m + k] = known.place(until, wanted, place[m + k])? as u16;
    }
    Some(known.high)
}
