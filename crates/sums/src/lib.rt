// Operations, words and code length of a table's functions, by sums that are taken once for each function.
#![tactic(auto)]

ghost use Rattle.std.specs.Prelude.{◌≡◌, suc, ◌+◌, ◌*◌, ◌<◌, ◌≤◌, ◌^◌, length, MatchOption, get_or};
ghost use Rattle.std.proofs.lemmas.List.Edits.{sets};
ghost use Rattle.base.specs.Limits.{function_limit, port_limit, port_word_limit};
ghost use Rattle.ports.specs.Ports.{widths};
ghost use Rattle.reader.specs.Layout.{node_at, nodes_at};
ghost use Rattle.reader.specs.Find.{ReadsNode, ReadsNodes, ReadsFunction};
ghost use Rattle.sums.specs.Position.{tabulate, place_of, position_of, AllRead, Accepted, Started};
ghost use Rattle.sums.specs.Capped.{Small, both, cap_sums, capped_sums, sums_at, plain_sums, nodes_sums, Caps, SumsHeld};
ghost use Rattle.sums.specs.Answers.{types_by, code_length, PortWordsAt, Measures};

use base::{
    CODE_LIMIT, FUNCTION_LIMIT, HEADER_LENGTH, OPERATION_LIMIT, WORD_LIMIT, u16_at, within_limits,
};

mod early;

use early::Early;

// ---- numbers

// Sums saturate at one more than their limits.
const OPERATION_CAP: usize = OPERATION_LIMIT + 1;

const WORD_CAP: usize = WORD_LIMIT + 1;

const BYTE_CAP: usize = CODE_LIMIT + 1;

// ---- places

// The places of n functions.
pub fn find_starts(table: &[u8], n: usize, starts: &mut [usize; FUNCTION_LIMIT])
    requires { (n ≤ function_limit) × AllRead table.now n }
    ensures starts_after { starts.new ≡ sets starts.old 0 (tabulate (place_of table.now) n) }
    ensures started { Started table.now starts.new n }
{
    let mut p = reader::HEADER;
    for start in &mut starts[..n] {
        *start = p;
        let count = u16_at(table, p + 4);
        p = reader::node_place(table, reader::nodes_place(table, p), count, count);
    }
}

// The position of the function of an id among those before k.
pub fn position_of(
    table: &[u8],
    starts: &[usize; FUNCTION_LIMIT],
    k: usize,
    id: usize,
) -> Option<usize>
    requires { (k ≤ function_limit) × Started table.now starts.now k }
    ensures { MatchOption result ((position_of table.now k id ≡ function_limit) × (k ≤ position_of table.now k id)) (λ g. (g ≡ position_of table.now k id) × (g < k)) }
{
    reader::find_function(table, starts, k, id).map(|found| found.index)
}

// ---- sums

// Operations, result words, instructions and bytes of code, saturated: exact below the cap.
#[derive(Clone, Copy)]
pub struct Sums {
    pub operations: usize,
    pub words: usize,
    pub instructions: usize,
    pub bytes: usize,
}

impl Sums {
    // Of no nodes.
    pub const NONE: Sums = Sums {
        operations: 0,
        words: 0,
        instructions: 0,
        bytes: 0,
    };

    fn plus(self, other: Sums) -> Sums
        requires { Small self × Small other }
        ensures { result ≡ cap_sums (both self other) }
    {
        Sums {
            operations: (self.operations + other.operations).min(OPERATION_CAP),
            words: (self.words + other.words).min(WORD_CAP),
            instructions: (self.instructions + other.instructions).min(OPERATION_CAP),
            bytes: (self.bytes + other.bytes).min(BYTE_CAP),
        }
    }
}

// The sums of the first n functions.
pub fn all_sums(
    table: &[u8],
    starts: &[usize; FUNCTION_LIMIT],
    n: usize,
    sums: &mut [Sums; FUNCTION_LIMIT],
)
    requires n_le_function_limit { (n ≤ function_limit) × Started table.now starts.now n }
    ensures sums_after { sums.new ≡ sets sums.old 0 (tabulate (capped_sums table.now) n) }
    ensures sums_held { SumsHeld table.now sums.new n }
{
    for k in 0..n {
        let early = Early {
            table,
            starts,
            sums,
            count: k,
        };
        let own = early.next_sums(starts[k]);
        sums[k] = own;
    }
}

// ---- sizes

// The words of n types, the first at p and each `step` bytes behind the one before it.
fn widths_at(table: &[u8], p: usize, step: usize, n: usize) -> usize
    requires { (0 < step) × (n ≤ port_limit) × (p + n * step ≤ length table.now) }
    ensures { (result ≡ widths (types_by step n table.now p)) × (result ≤ port_word_limit) }
{
    let mut total = 0;
    for i in 0..n {
        total += ports::width(table[p + i * step]);
    }
    total
}

// The words of a function's inputs and of its outputs.
#[derive(Clone, Copy)]
pub struct PortWords {
    pub inputs: usize,
    pub outputs: usize,
}

// Of the function at p.
fn port_words(table: &[u8], p: usize) -> PortWords
    requires { ReadsFunction table.now p }
    ensures { PortWordsAt table.now p result }
{
    let input_count = usize::from(table[p + 2]);
    let inputs = widths_at(table, p + 6, 1, input_count);
    let output_count = usize::from(table[p + 3]);
    let outputs = widths_at(table, p + 6 + input_count, 4, output_count);
    PortWords { inputs, outputs }
}

// The length of the code; 0 where operations or words are above their limits, as `Sizes` is defined.
#[tactic(auto, unfolding(crate::specs::Answers::code_length))]
fn code_length(operations: usize, words: usize, bytes: usize, outputs: usize) -> usize
    requires { (bytes < 2 ^ 32) × (outputs ≤ port_word_limit) }
    ensures { result ≡ code_length operations words bytes outputs }
{
    if within_limits(operations, words) {
        HEADER_LENGTH + bytes + 2 * outputs
    } else {
        0
    }
}

// A function's place; its operations, words and instructions and their bytes in version 1, saturated: exact up to the limits; the
// length of its code, 0 where operations or words are above their limits; the words of its inputs and outputs.
#[derive(Clone, Copy)]
pub struct Sizes {
    pub place: usize,
    pub operations: usize,
    pub words: usize,
    pub instructions: usize,
    pub bytes: usize,
    pub code: usize,
    pub arguments: usize,
    pub outputs: usize,
}

// The sizes of the function at position k of an accepted table, whose sums are taken.
pub fn sizes_at(
    table: &[u8],
    starts: &[usize; FUNCTION_LIMIT],
    k: usize,
    sums: &[Sums; FUNCTION_LIMIT],
) -> Sizes
    requires { Accepted table.now (suc k) × (get_or starts.now k 0 ≡ place_of table.now k) × (sums_at sums.now k ≡ capped_sums table.now k) }
    ensures { Measures table.now k result }
{
    let place = starts[k];
    let ports = port_words(table, place);
    let own = sums[k];
    let all = (ports.inputs + own.words).min(WORD_CAP);
    let code = code_length(own.operations, all, own.bytes, ports.outputs);
    Sizes {
        place,
        operations: own.operations,
        words: all,
        instructions: own.instructions,
        bytes: own.bytes,
        code,
        arguments: ports.inputs,
        outputs: ports.outputs,
    }
}

// The sizes of the function at position k of an accepted table, and the sums of the functions up to it.
pub fn measure(
    table: &[u8],
    starts: &[usize; FUNCTION_LIMIT],
    k: usize,
    sums: &mut [Sums; FUNCTION_LIMIT],
) -> Sizes
    requires { Accepted table.now (suc k) × Started table.now starts.now (suc k) }
    ensures { Measures table.now k result × SumsHeld table.now sums.new (suc k) }
{
    all_sums(table, starts, k + 1, sums);
    sizes_at(table, starts, k, sums)
}
