// The compiler: from a table and a function to the board list.
#![tactic(auto)]

ghost use Rattle.std.specs.Prelude.{◌≡◌, suc, Some, ◌≤◌, length, replicate};
ghost use Rattle.std.proofs.lemmas.List.Edits.{sets};
ghost use Rattle.base.specs.Limits.{function_limit, placed_limit, port_limit, reference_limit, word_limit};
ghost use Rattle.compiler.specs.Sizes.{order_limit, output_limit};
ghost use Rattle.bytecode.specs.declared.Version.TheVariants.{V1, V2};
ghost use Rattle.bytecode.specs.Code.{encode};
ghost use Rattle.bytecode.specs.Version.{number};
ghost use Rattle.sums.specs.Position.{Accepted, Started};
ghost use Rattle.compiler.specs.Emit.{naming_of};
ghost use Rattle.compiler.specs.Units.{AllHeld};
ghost use Rattle.compiler.specs.Whole.{code_at, first_behind, text_of, Measured, Prepared, source_at, reused_at, LaidOut};

use addresses::Frame;
use allocate::Functions;
use assemble::{input_names, input_places, put_header, put_outputs};
use base::{FUNCTION_LIMIT, HEADER_LENGTH, NODE_LIMIT, PLACED_LIMIT, PORT_LIMIT, REFERENCE_LIMIT};
use bytecode::Version;
use placed::place;
use sums::{Sizes, Sums};
use walk::Walk;

mod addresses;
mod allocate;
mod assemble;
mod constants;
mod held;
mod instruction;
mod location;
mod placed;
mod walk;

// ---- sizes of arrays; `specs/Sizes.antt` has the same

// Nodes of all functions.
pub const ORDER_LIMIT: usize = FUNCTION_LIMIT * NODE_LIMIT;
// Ports of a function's nodes.
const NODE_PORT_LIMIT: usize = NODE_LIMIT * PORT_LIMIT;
// Outputs of all functions.
pub const OUTPUT_LIMIT: usize = FUNCTION_LIMIT * PORT_LIMIT;
// Names that a value takes; `name_step` of `lowering`.
const NAME_STEP: usize = 4;

// ---- what functions answer

// What a walk over the instructions does with each: note who reads a value last and how wide it is, or write it, in version 1
// or 2. It is an enum, as the theorems go by its values in `bytes_by`, `notes_by` and `Walks` of `specs/Emit.antt`; as a type
// parameter it would have the recursion of `Walk` stand three times in the library.
#[derive(Clone, Copy)]
pub enum Pass {
    Survey,
    Sequential,
    Addressed,
}

impl Pass {
    // The number of the version that is written.
    fn version_number(self) -> u8
        ensures { result ≡ number (naming_of self) }
    {
        match self {
            Pass::Sequential => 1,
            Pass::Survey | Pass::Addressed => 2,
        }
    }

    // The first address behind n inputs of so many words.
    fn first_behind(self, words: usize, n: usize) -> usize
        requires { n ≤ port_limit }
        ensures { result ≡ first_behind (naming_of self) words n }
    {
        match self {
            Pass::Sequential => words,
            Pass::Survey | Pass::Addressed => NAME_STEP * n,
        }
    }
}

// The byte behind what was written, the next address, and the location behind those that were read.
#[derive(Clone, Copy)]
pub struct Reached {
    pub at: usize,
    pub next: usize,
    pub cell: usize,
}

// The function that is compiled, at position k of an accepted table, and its sizes.
#[derive(Clone, Copy)]
struct Chosen<'a> {
    table: &'a [u8],
    starts: &'a [usize; FUNCTION_LIMIT],
    k: usize,
    sizes: Sizes,
}

// What is found out before anything is written, in arrays for all functions up to the one that is compiled.
#[derive(Drop)]
pub struct Layout {
    // The locations of the outputs.
    pub outs: [u16; OUTPUT_LIMIT],
    // The places of the nodes, in their order.
    pub order: [u16; ORDER_LIMIT],
    // The locations of what the nodes read, and where those of a function begin.
    pub locations: [u16; REFERENCE_LIMIT],
    pub begins: [u16; FUNCTION_LIMIT],
    // The addresses of the inputs of the function that is compiled.
    pub ins: [u16; PORT_LIMIT],
}

impl Layout {
    // With nothing in it, to be filled by `prepare`.
    pub fn new() -> Layout
        ensures { (result.outs ≡ replicate output_limit 0) × (result.order ≡ replicate order_limit 0) × (result.locations ≡ replicate reference_limit 0) × (result.begins ≡ replicate function_limit 0) × (result.ins ≡ replicate port_limit 0) }
    {
        Layout {
            outs: [0; OUTPUT_LIMIT],
            order: [0; ORDER_LIMIT],
            locations: [0; REFERENCE_LIMIT],
            begins: [0; FUNCTION_LIMIT],
            ins: [0; PORT_LIMIT],
        }
    }
}

// ---- the whole

// Before anything is written: the locations of all functions up to position k of an accepted table, and the addresses of its
// inputs. `sums` has the words of these functions, or in version 2 their instructions.
pub fn prepare(
    version: Version,
    table: &[u8],
    starts: &[usize; FUNCTION_LIMIT],
    sums: &[Sums; FUNCTION_LIMIT],
    k: usize,
    layout: &mut Layout,
)
    requires accepted { Accepted table.now (suc k) × Started table.now starts.now (suc k) × AllHeld version table.now sums.now (suc k) }
    ensures { Prepared version table.now k layout.new }
{
    let functions = Functions {
        version,
        table,
        starts,
        sums,
    };
    let p = starts[k];
    let n = usize::from(table[p + 2]);
    functions.allocate(k + 1, layout);
    layout.ins = match version {
        Version::V1 => input_places(table, p + 6, n),
        Version::V2 => input_names(n),
    };
}

// Writes the list: header, instructions and output words.
fn write(
    pass: Pass,
    chosen: Chosen<'_>,
    words: usize,
    layout: &Layout,
    place: &mut [u16],
    code: &mut [u8],
)
    requires accepted { Accepted chosen.table.now (suc chosen.k) × Started chosen.table.now chosen.starts.now (suc chosen.k) × Prepared (naming_of pass) chosen.table.now chosen.k layout.now }
    requires measured { Measured (naming_of pass) chosen.table.now chosen.k chosen.sizes.instructions chosen.sizes.arguments chosen.sizes.outputs × (words ≤ word_limit) × (length (text_of pass place.old chosen.table.now chosen.k words) ≤ length code.old) }
    ensures { code.new ≡ sets code.old 0 (text_of pass place.old chosen.entry.table.now chosen.entry.k words) }
{
    let Chosen {
        table,
        starts,
        k,
        sizes,
    } = chosen;
    let p = starts[k];
    let inputs = usize::from(table[p + 2]);
    let outputs = usize::from(table[p + 3]);
    let first = pass.first_behind(sizes.arguments, inputs);
    put_header(
        code,
        pass.version_number(),
        sizes.arguments as u8,
        sizes.outputs as u8,
        sizes.instructions as u16,
        words as u16,
    );
    let walk = Walk {
        pass,
        table,
        starts,
        layout,
        inputs,
    };
    let ins = &layout.ins;
    let r = walk.function(k, ins, code, place, &mut [], HEADER_LENGTH, first);
    let outs = &layout.outs[..];
    let cells = &outs[PORT_LIMIT * k..PORT_LIMIT * k + outputs];
    let frame = Frame { ins, first };
    put_outputs(pass, table, p + 6 + inputs, cells, frame, place, code, r.at);
}

// ---- the entry points. `table`, `starts`, `sums`, `k` and `sizes` stay parts: callers have them so, and a struct would ask more.

// Writes the list of version 1 of the function at position k of an accepted table, which was found to be within the limits
// and to fit the buffer. `sums` has the words of the functions up to it. Inlined, so that an evaluation has one frame with the
// arrays and not two.
#[inline(always)]
pub fn compile(
    table: &[u8],
    starts: &[usize; FUNCTION_LIMIT],
    sums: &[Sums; FUNCTION_LIMIT],
    k: usize,
    sizes: Sizes,
    code: &mut [u8],
)
    requires accepted { Accepted table.now (suc k) × Started table.now starts.now (suc k) × AllHeld V1 table.now sums.now (suc k) }
    requires measured { Measured V1 table.now k sizes.instructions sizes.arguments sizes.outputs × (sizes.words ≡ (source_at table.now k).words) × (sizes.words ≤ word_limit) × (length (code_at table.now k) ≤ length code.old) }
    ensures { code.new ≡ sets code.old 0 (code_at table.now k) }
{
    let mut layout = Layout::new();
    prepare(Version::V1, table, starts, sums, k, &mut layout);
    compile_prepared(table, starts, k, sizes, &layout, code);
}

// The same where the list was prepared: in a layout that is lent, whose arrays the caller may use again.
pub fn compile_prepared(
    table: &[u8],
    starts: &[usize; FUNCTION_LIMIT],
    k: usize,
    sizes: Sizes,
    layout: &Layout,
    code: &mut [u8],
)
    requires accepted { Accepted table.now (suc k) × Started table.now starts.now (suc k) × Prepared V1 table.now k layout.now }
    requires measured { Measured V1 table.now k sizes.instructions sizes.arguments sizes.outputs × (sizes.words ≡ (source_at table.now k).words) × (sizes.words ≤ word_limit) × (length (code_at table.now k) ≤ length code.old) }
    ensures { code.new ≡ sets code.old 0 (code_at table.now k) }
{
    let chosen = Chosen {
        table,
        starts,
        k,
        sizes,
    };
    write(Pass::Sequential, chosen, sizes.words, layout, &mut [], code);
}

// Version 2, before anything is written: the words of the list of the function at position k, unless they pass the limit.
// `sums` has the instructions of the functions up to it; what the writing needs is left in the layout and in `places`.
pub fn lay_out(
    table: &[u8],
    starts: &[usize; FUNCTION_LIMIT],
    sums: &[Sums; FUNCTION_LIMIT],
    k: usize,
    sizes: Sizes,
    layout: &mut Layout,
    places: &mut [u16; PLACED_LIMIT],
) -> Option<usize>
    requires accepted { Accepted table.now (suc k) × Started table.now starts.now (suc k) × AllHeld V2 table.now sums.now (suc k) }
    requires measured { Measured V2 table.now k sizes.instructions sizes.arguments sizes.outputs × (places.old ≡ replicate placed_limit 0) }
    ensures { LaidOut table.now k layout.new places.new result }
{
    prepare(Version::V2, table, starts, sums, k, layout);
    place(
        Chosen {
            table,
            starts,
            k,
            sizes,
        },
        layout,
        places,
    )
}

// Writes the list of version 2, which has so many words and fits the buffer.
pub fn compile_placed(
    table: &[u8],
    starts: &[usize; FUNCTION_LIMIT],
    k: usize,
    sizes: Sizes,
    words: usize,
    layout: &Layout,
    places: &mut [u16; PLACED_LIMIT],
    code: &mut [u8],
)
    requires accepted { Accepted table.now (suc k) × Started table.now starts.now (suc k) × LaidOut table.now k layout.now places.old (Some words) }
    requires measured { Measured V2 table.now k sizes.instructions sizes.arguments sizes.outputs × (words ≤ word_limit) × (length (encode V2 (reused_at table.now k)) ≤ length code.old) }
    ensures { code.new ≡ sets code.old 0 (encode V2 (reused_at table.now k)) }
{
    let chosen = Chosen {
        table,
        starts,
        k,
        sizes,
    };
    write(
        Pass::Addressed,
        chosen,
        words,
        layout,
        &mut places[..],
        code,
    );
}
