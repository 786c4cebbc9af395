// A walk over the instructions of a function, each call opened where it stands. It comes by them in the order of the list,
// and does with each what its pass says.
ghost use Rattle.std.specs.Prelude.{◌≡◌, false, [], suc, ◌+◌, ◌<◌, ◌≤◌, length, map};
ghost use Rattle.base.specs.Limits.{function_limit, reference_limit};
ghost use Rattle.base.specs.Bytes.{Bytes};
ghost use Rattle.base.specs.Lists.{Each};
ghost use Rattle.ports.specs.Kinds.{kind_of};
ghost use Rattle.ports.specs.Ports.{ports_of, has_type};
ghost use Rattle.value.specs.Values.{words_of};
ghost use Rattle.value.specs.Typed.{Finite};
ghost use Rattle.graph.specs.Look.{reads};
ghost use Rattle.reader.specs.Layout.{node_at};
ghost use Rattle.reader.specs.Find.{ReadsNode};
ghost use Rattle.sums.specs.Position.{Started};
ghost use Rattle.lowering.specs.Compile.{single};
ghost use Rattle.lowering.specs.Naming.{sizing};
ghost use Rattle.compiler.specs.Units.{unit_bound};
ghost use Rattle.compiler.specs.Emit.{address_of, naming_of, node_inlined, function_inlined, CodeRoom, Walks, AllAllocated};

use super::addresses::{Frame, arguments};
use super::instruction::{
    place_constant, place_operation, survey_instruction, write_constant, write_operation,
};
use super::{Layout, Pass, Reached};
use base::{FUNCTION_LIMIT, NODE_LIMIT, PORT_LIMIT, u16_at};
use reader::Payload;
use value::Value;

// What is walked over, and what is done on the way. `inputs` counts those of the outermost function.
#[derive(Clone, Copy)]
pub struct Walk<'a> {
    pub pass: Pass,
    pub table: &'a [u8],
    pub starts: &'a [usize; FUNCTION_LIMIT],
    pub layout: &'a Layout,
    pub inputs: usize,
}

// `code`, `place` and `wide` are lent one by one: a struct of `&mut`s would have to say of each whose reference it still is.
impl Walk<'_> {
    // The instruction of a constant.
    fn constant(
        self,
        kind: u8,
        ty: u8,
        v: Value,
        frame: Frame<'_>,
        code: &mut [u8],
        place: &mut [u16],
        wide: &mut [u8],
        from: Reached,
    ) -> Reached
        requires first_le_unit_bound { (frame.first ≤ unit_bound) × (from.cell ≤ reference_limit) }
        requires code_room { CodeRoom self.pass code.old place.old from.at from.next (single (sizing (naming_of self.pass)) kind ty [] (words_of v) from.next) × Each Finite (words_of v) }
        requires untyped { has_type (ports_of (kind_of kind)) ≡ false }
        ensures walks { Walks self.entry.pass self.entry.inputs code.old place.old wide.old code.new place.new wide.new from.at
            (single (sizing (naming_of self.entry.pass)) kind ty [] (words_of v) from.next) result }
        ensures cell_value { result.cell ≡ from.cell }
    {
        match self.pass {
            Pass::Survey => {
                survey_instruction(kind, ty, &[], frame, self.inputs, place, wide, from)
            }
            Pass::Sequential => write_constant(kind, ty, v, code, from),
            Pass::Addressed => place_constant(kind, ty, v, place, code, from),
        }
    }

    // The instruction of a node that reads the values at these locations.
    fn operation(
        self,
        kind: u8,
        ty: u8,
        cells: &[u16],
        frame: Frame<'_>,
        code: &mut [u8],
        place: &mut [u16],
        wide: &mut [u8],
        from: Reached,
    ) -> Reached
        requires first_le_unit_bound { (frame.first ≤ unit_bound) × (from.cell + length cells.now ≤ reference_limit) }
        requires code_room { CodeRoom self.pass code.old place.old from.at from.next (single (sizing (naming_of self.pass)) kind ty (map (address_of frame.ins.now frame.first) cells.now) [] from.next) }
        ensures walks { Walks self.entry.pass self.entry.inputs code.old place.old wide.old code.new place.new wide.new from.at
            (single (sizing (naming_of self.entry.pass)) kind ty (map (address_of frame.entry.ins.now frame.entry.first) cells.now) [] from.next) result }
        ensures cell_value { result.cell ≡ from.cell + length cells.now }
    {
        match self.pass {
            Pass::Survey => {
                survey_instruction(kind, ty, cells, frame, self.inputs, place, wide, from)
            }
            Pass::Sequential => write_operation(kind, ty, cells, frame, code, from),
            Pass::Addressed => place_operation(kind, ty, cells, frame, place, code, from),
        }
    }

    // The node at p of the function at position k, which is opened as `frame` says.
    #[cycle(function_node)]
    fn node(
        self,
        k: usize,
        p: usize,
        frame: Frame<'_>,
        code: &mut [u8],
        place: &mut [u16],
        wide: &mut [u8],
        from: Reached,
    ) -> Reached
        requires k_lt_function_limit { (k < function_limit) × Started self.table.now self.starts.now k × ReadsNode self.table.now p × Bytes self.table.now }
        requires first_le_unit_bound { (frame.first ≤ unit_bound) × (from.cell + length (reads (node_at self.table.now p)) ≤ reference_limit) }
        requires all_allocated { AllAllocated (naming_of self.pass) self.table.now self.layout.now k }
        requires code_room { CodeRoom self.pass code.old place.old from.at from.next (node_inlined (naming_of self.pass) self.table.now self.layout.now.locations k p from.cell frame.ins.now frame.first from.next) }
        ensures walks { Walks self.entry.pass self.entry.inputs code.old place.old wide.old code.new place.new wide.new from.at
            (node_inlined (naming_of self.entry.pass) self.entry.table.now self.entry.layout.now.locations k p from.cell frame.entry.ins.now frame.entry.first from.next) result }
        ensures cell_value { result.cell ≡ from.cell + length (reads (node_at self.entry.table.now p)) }
    {
        let table = self.table;
        let node = reader::node_at(table, p);
        let locations = &self.layout.locations[..];
        match node.payload {
            Payload::Constant(v) => {
                self.constant(node.kind, node.ty, v, frame, code, place, wide, from)
            }
            Payload::References(reads) => {
                let cells = &locations[from.cell..from.cell + reads.count];
                self.operation(node.kind, node.ty, cells, frame, code, place, wide, from)
            }
            Payload::Call(callee, reads) => {
                let cell = from.cell + reads.count;
                let mut args = [0; PORT_LIMIT];
                arguments(&locations[from.cell..cell], frame, &mut args);
                let reached = match sums::position_of(table, self.starts, k, callee) {
                    Some(g) => self.function(g, &args, code, place, wide, from.at, from.next),
                    None => from,
                };
                Reached { cell, ..reached }
            }
        }
    }

    // The function at position k, with the addresses of its arguments.
    #[cycle(function_node)]
    pub fn function(
        self,
        k: usize,
        ins: &[u16; PORT_LIMIT],
        code: &mut [u8],
        place: &mut [u16],
        wide: &mut [u8],
        at: usize,
        next: usize,
    ) -> Reached
        requires k_lt_function_limit { (k < function_limit) × Started self.table.now self.starts.now (suc k) × Bytes self.table.now }
        requires all_allocated { AllAllocated (naming_of self.pass) self.table.now self.layout.now (suc k) }
        requires code_room { CodeRoom self.pass code.old place.old at next (function_inlined (naming_of self.pass) self.table.now k ins.now next) }
        ensures { Walks self.entry.pass self.entry.inputs code.old place.old wide.old code.new place.new wide.new at
            (function_inlined (naming_of self.entry.pass) self.entry.table.now k ins.now next) result }
    {
        let frame = Frame { ins, first: next };
        let n = u16_at(self.table, self.starts[k] + 4);
        let cell = usize::from(self.layout.begins[k]);
        let mut reached = Reached { at, next, cell };
        for i in 0..n {
            let p = usize::from(self.layout.order[NODE_LIMIT * k + i]);
            reached = self.node(k, p, frame, code, place, wide, reached);
        }
        reached
    }
}
