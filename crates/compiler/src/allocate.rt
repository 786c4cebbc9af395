// Where each value of a function lies: an input, or an offset from where its results begin. The arrays are flat, the q-th of i at
// `PORT_LIMIT * i + q`, since they are lent in this fixed form.
ghost use Rattle.std.specs.Prelude.{◌≡◌, suc, ◌+◌, ◌*◌, ◌<◌, ◌≤◌, length, replicate};
ghost use Rattle.std.proofs.Math.Option.{some};
ghost use Rattle.std.proofs.lemmas.List.Edits.{sets};
ghost use Rattle.base.specs.Limits.{function_limit, node_limit, operand_limit, port_limit, reference_limit, value_limit};
ghost use Rattle.graph.specs.Look.{reads};
ghost use Rattle.graph.specs.Read.{reference};
ghost use Rattle.order.specs.Resolve as Resolve;
ghost use Rattle.reader.specs.Find.{ReadsNode, ReadsNodes, ReadsFunction};
ghost use Rattle.order.specs.Indices.{index_order};
ghost use Rattle.resolver.specs.Slots.{PlacesAre};
ghost use Rattle.compiler.specs.Locating.{NodesAllocated, FunctionAllocated, AllocatedTo, read_count, output_codes, Slots, read_codes, rebased_codes, result_codes, node_codes, AllOuts};
ghost use Rattle.reader.specs.Layout.{output_count, outputs_place, node_at, nodes_at, nodes_place, node_count};
ghost use Rattle.sums.specs.Position.{place_of, Accepted, Started};
ghost use Rattle.compiler.specs.Units.{units_at, adds_units, unit_limit, unit_bound, AllHeld};

use super::held::{fits, taken, units};
use super::location::{location_of, rebase};
use super::{Layout, NODE_PORT_LIMIT, OUTPUT_LIMIT};
use base::{
    FUNCTION_LIMIT, NO_NODE, NODE_LIMIT, OPERAND_LIMIT, PORT_LIMIT, REFERENCE_LIMIT, SLOT_LIMIT,
    u16_at,
};
use bytecode::Version;
use sums::Sums;

// The index of the node that the reference at q reads, or `NO_NODE`.
fn target(table: &[u8], at: usize, n: usize, q: usize) -> u16
    requires { (n ≤ node_limit) × (q + 2 ≤ length table.now) × ReadsNodes n table.now at }
    ensures { result ≡ Resolve.target (nodes_at n table.now at) (some (reference table.now q)) }
{
    let id = u16_at(table, q);
    if id == 0 {
        return NO_NODE;
    }
    match reader::find_node(table, at, n, id) {
        Some(found) => found.index as u16,
        None => NO_NODE,
    }
}

// The locations of n references, the first at q, of the i-th node. By index, as its slots and locations are parts of arrays of all nodes.
fn allocate_reads(
    table: &[u8],
    targets: &[u16; SLOT_LIMIT],
    allocated: &[u16; NODE_PORT_LIMIT],
    i: usize,
    first: usize,
    n: usize,
    locations: &mut [u16; REFERENCE_LIMIT],
    cell: usize,
)
    requires { (i < node_limit) × (n ≤ operand_limit) × (first + 3 * n ≤ length table.now) × (cell + n ≤ reference_limit) }
    ensures { locations.new ≡ sets locations.old cell
        (read_codes table.now targets.now allocated.now (operand_limit * i) n first) }
{
    for j in 0..n {
        let v = usize::from(targets[OPERAND_LIMIT * i + j]);
        let port = usize::from(table[first + 3 * j + 2]);
        locations[cell + j] = location_of(allocated, v, port);
    }
}

// The ports of the i-th node, which calls the function at position g.
fn allocate_call(
    layout: &Layout,
    g: usize,
    count: usize,
    cell: usize,
    n: usize,
    allocated: &mut [u16; NODE_PORT_LIMIT],
    i: usize,
    d: usize,
)
    requires { (g < function_limit) × (count ≤ port_limit) × (cell + n ≤ reference_limit) × (i < node_limit) × (d ≤ unit_bound) }
    ensures { allocated.new ≡ sets allocated.old (port_limit * i) (rebased_codes layout.now.outs layout.now.locations cell n d (port_limit * g) count) }
{
    for q in 0..count {
        let e = usize::from(layout.outs[PORT_LIMIT * g + q]);
        allocated[PORT_LIMIT * i + q] = rebase(&layout.locations, cell, n, d, e);
    }
}

// The ports of the i-th node: results of the same width.
fn allocate_results(
    allocated: &mut [u16; NODE_PORT_LIMIT],
    i: usize,
    d: usize,
    count: usize,
    width: usize,
)
    requires { (i < node_limit) × (d ≤ unit_bound) × (count ≤ port_limit) × (width ≤ value_limit) }
    ensures { allocated.new ≡ sets allocated.old (port_limit * i) (result_codes (port_limit + d) width count) }
{
    let mut e = PORT_LIMIT + d;
    for q in 0..count {
        allocated[PORT_LIMIT * i + q] = e as u16;
        e += width;
    }
}

// The locations of the outputs of the function at p, the k-th, whose n nodes begin at `at`.
fn allocate_outputs(
    table: &[u8],
    p: usize,
    at: usize,
    n: usize,
    allocated: &[u16; NODE_PORT_LIMIT],
    k: usize,
    outs: &mut [u16; OUTPUT_LIMIT],
)
    requires { (k < function_limit) × ReadsFunction table.now p × (n ≤ node_limit) × ReadsNodes n table.now at }
    ensures { outs.new ≡ sets outs.old (port_limit * k)
        (output_codes table.now allocated.now (nodes_at n table.now at) (output_count table.now p) (outputs_place table.now p)) }
{
    let count = usize::from(table[p + 3]);
    let mut q = p + 6 + usize::from(table[p + 2]);
    for j in 0..count {
        let v = usize::from(target(table, at, n, q + 1));
        let port = usize::from(table[q + 1 + 2]);
        outs[PORT_LIMIT * k + j] = location_of(allocated, v, port);
        q += 4;
    }
}

// The functions of an accepted table: where each begins, and what it takes.
#[derive(Clone, Copy)]
pub struct Functions<'a> {
    pub version: Version,
    pub table: &'a [u8],
    pub starts: &'a [usize; FUNCTION_LIMIT],
    pub sums: &'a [Sums; FUNCTION_LIMIT],
}

impl Functions<'_> {
    // The ports of the i-th node, which stands at p; the answer is the offset behind its results.
    fn allocate_node(
        self,
        layout: &Layout,
        k: usize,
        i: usize,
        p: usize,
        cell: usize,
        n: usize,
        allocated: &mut [u16; NODE_PORT_LIMIT],
        d: usize,
    ) -> usize
        requires k_le_function_limit { (k ≤ function_limit) × (i < node_limit) × ReadsNode self.table.now p × Started self.table.now self.starts.now k × AllHeld self.version self.table.now self.sums.now k }
        requires all_outs { AllOuts self.version self.table.now layout.now.outs k × (cell + n ≤ reference_limit) × (n ≡ length (reads (node_at self.table.now p))) }
        requires p_bound { d + adds_units self.version self.table.now k (node_at self.table.now p) ≤ unit_limit self.version }
        ensures allocated_after { allocated.new ≡ sets allocated.old (port_limit * i) (node_codes self.entry.table.now layout.now.outs layout.now.locations k p cell d) }
        ensures value { result ≡ d + adds_units self.entry.version self.entry.table.now k (node_at self.entry.table.now p) }
    {
        let row = ports::ports_of(self.table[p + 2]);
        if row.form.is_call() {
            let callee = reader::callee_at(self.table, p);
            let Some(g) = sums::position_of(self.table, self.starts, k, callee) else {
                return d;
            };
            let count = usize::from(self.table[self.starts[g] + 3]);
            allocate_call(layout, g, count, cell, n, allocated, i, d);
            d + units(self.version, self.sums[g])
        } else {
            let ty = self.table[p + 3];
            let w = ports::width(ports::own(ty, row.result));
            let count = usize::from(row.results);
            let all = taken(self.version, row, ty);
            allocate_results(allocated, i, d, count, w);
            d + all
        }
    }

    // The nodes of the function at position k in their order; the answer is the place behind their locations.
    fn allocate_nodes(
        self,
        targets: &[u16; SLOT_LIMIT],
        places: &[u32; NODE_LIMIT],
        index: &[u16; NODE_LIMIT],
        k: usize,
        n: usize,
        layout: &mut Layout,
        allocated: &mut [u16; NODE_PORT_LIMIT],
        cell: usize,
    ) -> usize
        requires accepted { Accepted self.table.now (suc k) × (n ≡ node_count self.table.now (place_of self.table.now k)) × (units_at self.version self.table.now k ≤ unit_limit self.version) × (cell + read_count self.table.now k ≤ reference_limit) }
        requires started { Started self.table.now self.starts.now k × AllHeld self.version self.table.now self.sums.now k × AllOuts self.version self.table.now layout.old.outs k }
        requires slots { Slots self.table.now (nodes_place self.table.now (place_of self.table.now k)) n targets.now × PlacesAre self.table.now (nodes_place self.table.now (place_of self.table.now k)) n places.now
            × (index.now ≡ sets (replicate node_limit 0) 0 (index_order targets.now n)) }
        ensures { NodesAllocated self.entry.version self.entry.table.now k cell layout.old layout.new allocated.new result }
    {
        let mut here = cell;
        let mut d = 0;
        for m in 0..n {
            let i = usize::from(index[m]);
            let p = places[i] as usize;
            layout.order[NODE_LIMIT * k + m] = p as u16;
            let row = ports::ports_of(self.table[p + 2]);
            let r = reader::reads_by(self.table, p, row);
            let count = r.count;
            let locations = &mut layout.locations;
            allocate_reads(
                self.table, targets, allocated, i, r.first, count, locations, here,
            );
            d = self.allocate_node(layout, k, i, p, here, count, allocated, d);
            here += count;
        }
        here
    }

    // The function at position k; the answer is the place behind its locations.
    fn allocate_function(self, k: usize, layout: &mut Layout, cell: usize) -> usize
        requires accepted { Accepted self.table.now (suc k) × (units_at self.version self.table.now k ≤ unit_limit self.version) × (cell + read_count self.table.now k ≤ reference_limit) }
        requires started { Started self.table.now self.starts.now (suc k) × AllHeld self.version self.table.now self.sums.now k × AllOuts self.version self.table.now layout.old.outs k }
        ensures { FunctionAllocated self.entry.version self.entry.table.now k cell layout.old layout.new result }
    {
        let table = self.table;
        let p = self.starts[k];
        let n = u16_at(table, p + 4);
        let at = reader::nodes_place(table, p);
        let mut places = [0; NODE_LIMIT];
        let mut targets = [0; SLOT_LIMIT];
        let mut index = [0; NODE_LIMIT];
        let mut allocated = [0; NODE_PORT_LIMIT];
        resolver::places(table, at, n, &mut places);
        resolver::resolve(table, &places, n, &mut targets);
        order::schedule(&targets, n, &mut index);
        let end = self.allocate_nodes(
            &targets,
            &places,
            &index,
            k,
            n,
            layout,
            &mut allocated,
            cell,
        );
        allocate_outputs(table, p, at, n, &allocated, k, &mut layout.outs);
        end
    }

    // The function at position j, where it is within the limit; the answer is the place behind all locations.
    fn allocate_next(self, j: usize, layout: &mut Layout, cell: usize) -> usize
        requires accepted { Accepted self.table.now (suc j) × Started self.table.now self.starts.now (suc j) × AllHeld self.version self.table.now self.sums.now (suc j) }
        requires allocated_to { AllocatedTo self.version self.table.now j layout.old cell }
        ensures { AllocatedTo self.entry.version self.entry.table.now (suc j) layout.new result }
    {
        if !fits(self.version, self.sums[j]) {
            return cell;
        }
        layout.begins[j] = cell as u16;
        self.allocate_function(j, layout, cell)
    }

    // The functions before k that are within the limit; the answer is the place behind all locations.
    pub fn allocate(self, k: usize, layout: &mut Layout) -> usize
        requires accepted { Accepted self.table.now k × Started self.table.now self.starts.now k × AllHeld self.version self.table.now self.sums.now k }
        ensures { AllocatedTo self.entry.version self.entry.table.now k layout.new result }
    {
        let mut cell = 0;
        for j in 0..k {
            cell = self.allocate_next(j, layout, cell);
        }
        cell
    }
}
