// The words of a list of version 2, which are placed before anything is written.
ghost use Rattle.std.specs.Prelude.{◌≡◌, map, suc, ◌+◌, ◌≤◌, length, replicate};
ghost use Rattle.std.proofs.lemmas.List.Edits.{sets};
ghost use Rattle.base.specs.Limits.{placed_limit, port_limit};
ghost use Rattle.ports.specs.Ports.{width};
ghost use Rattle.bytecode.specs.declared.Version.TheVariants.{V2};
ghost use Rattle.sums.specs.Answers.{types_by};
ghost use Rattle.sums.specs.Position.{Accepted, Started};
ghost use Rattle.compiler.specs.Whole.{Measured, Prepared, Surveyed, Places};

use super::addresses::{Frame, note_operands};
use super::walk::Walk;
use super::{Chosen, Layout, NAME_STEP, Pass};
use base::{PLACED_LIMIT, PORT_LIMIT, WORD_LIMIT};

// The widths of n inputs, by their type bytes.
fn input_widths(table: &[u8], at: usize, n: usize, widths: &mut [u8; PLACED_LIMIT])
    requires { (at + n ≤ length table.now) × (n ≤ port_limit) }
    ensures { widths.new ≡ sets widths.old 0 (map width (types_by 1 n table.now at)) }
{
    for j in 0..n {
        widths[j] = ports::width(table[at + j]) as u8;
    }
}

// The width of each value of the chosen function, and in `place` the instruction before which it is no longer held.
fn survey(
    chosen: Chosen<'_>,
    layout: &Layout,
    place: &mut [u16; PLACED_LIMIT],
    widths: &mut [u8; PLACED_LIMIT],
)
    requires accepted { Accepted chosen.table.now (suc chosen.k) × Started chosen.table.now chosen.starts.now (suc chosen.k) × Prepared V2 chosen.table.now chosen.k layout.now }
    requires measured { Measured V2 chosen.table.now chosen.k chosen.sizes.instructions chosen.sizes.arguments chosen.sizes.outputs × (place.old ≡ replicate placed_limit 0) × (widths.old ≡ replicate placed_limit 0) }
    ensures { Surveyed chosen.entry.table.now chosen.entry.k place.new widths.new }
{
    let Chosen {
        table,
        starts,
        k,
        sizes,
    } = chosen;
    let p = starts[k];
    let inputs = usize::from(table[p + 2]);
    let outputs = usize::from(table[p + 3]);
    let first = NAME_STEP * inputs;
    input_widths(table, p + 6, inputs, widths);
    let pass = Pass::Survey;
    let walk = Walk {
        pass,
        table,
        starts,
        layout,
        inputs,
    };
    let ins = &layout.ins;
    walk.function(k, ins, &mut [], &mut place[..], &mut widths[..], 0, first);
    let outs = &layout.outs[..];
    let cells = &outs[PORT_LIMIT * k..PORT_LIMIT * k + outputs];
    let end = (sizes.instructions + 1) as u16;
    note_operands(cells, Frame { ins, first }, &mut place[..], end);
}

// The places of the values of the chosen function: the words of its list of version 2, unless they pass the limit.
pub fn place(chosen: Chosen<'_>, layout: &Layout, place: &mut [u16; PLACED_LIMIT]) -> Option<usize>
    requires accepted { Accepted chosen.table.now (suc chosen.k) × Started chosen.table.now chosen.starts.now (suc chosen.k) × Prepared V2 chosen.table.now chosen.k layout.now }
    requires measured { Measured V2 chosen.table.now chosen.k chosen.sizes.instructions chosen.sizes.arguments chosen.sizes.outputs × (place.old ≡ replicate placed_limit 0) }
    ensures { Places chosen.entry.table.now chosen.entry.k place.new result }
{
    let mut widths = [0u8; PLACED_LIMIT];
    let mut until = [0u16; WORD_LIMIT];
    let Chosen {
        table,
        starts,
        k,
        sizes,
    } = chosen;
    let m = usize::from(table[starts[k] + 2]);
    survey(chosen, layout, place, &mut widths);
    placement::place_all(&widths, m, sizes.instructions, &mut until, place)
}
