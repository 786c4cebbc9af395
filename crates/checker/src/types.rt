// Each reference names a port, and the port has the type that is wanted there.
ghost use Rattle.std.specs.Prelude.{◌≡◌, ◌+◌, ◌*◌, ◌<◌, ◌≤◌, length};
ghost use Rattle.std.proofs.Math.Option.{some};
ghost use Rattle.std.proofs.Math.ListN.{get_elem?};
ghost use Rattle.ports.specs.Ports.{gives_row};
ghost use Rattle.base.specs.Limits.{node_limit, operand_limit};
ghost use Rattle.base.specs.Outcome.{ok, each};
ghost use Rattle.base.specs.Refusals.{outcome};
ghost use Rattle.graph.specs.Look.{find_function};
ghost use Rattle.graph.specs.Read.{reference, references};
ghost use Rattle.graph.specs.Judge.{call_ok};
ghost use Rattle.graph.specs.Types.{gives_of, outputs_of, output_types};
ghost use Rattle.order.specs.Resolve.{target};
ghost use Rattle.reader.specs.Layout.{node_at, node_place, function_at};
ghost use Rattle.reader.specs.Find.{ReadsNode, ReadsFunction};
ghost use Rattle.checker.specs.Answers.{port_of, type_at, wanted, wants_list, WantFits, outputs_checked, references_checked, node_checked, calls_checked};
ghost use Rattle.checker.specs.Scenes.{early, judged};
ghost use Rattle.checker.specs.Slots.{RowIs, RowsAre};

use super::scene::Scene;
use base::{Fault, OPERAND_LIMIT, Refusal, SLOT_LIMIT, u16_at};
use ports::{Form, Ports};
use reader::Reads;

// What references want: the first a type and the others another, or the inputs of the function at a place. Types are bytes, as in `ports`.
#[derive(Clone, Copy)]
pub enum Want {
    Types(u8, u8),
    Inputs(usize),
}

impl Want {
    // The j-th of them.
    fn nth(self, s: &[u8], j: usize) -> u8
        requires { WantFits s.now (j + 1) self }
        ensures { result ≡ wanted s.now self j }
    {
        match self {
            Want::Types(first, rest) => { if j == 0 { first } else { rest } }
            Want::Inputs(place) => s[place + 6 + j],
        }
    }
}

// ---- the type at a port

// Of a node whose kind has this row.
fn row_port(row: Ports, ty: u8, port: u8) -> Option<u8>
    ensures { result ≡ port_of (get_elem? (gives_row row ty) port) }
{
    if port < row.results {
        Some(ports::own(ty, row.result))
    } else {
        None
    }
}

// Of the outputs of the function at `at`.
fn output_port(s: &[u8], at: usize, port: u8) -> Option<u8>
    requires { ReadsFunction s.now at }
    ensures { result ≡ port_of (get_elem? (output_types (function_at s.now at).outputs) port) }
{
    if port < s[at + 3] {
        Some(s[at + 6 + usize::from(s[at + 2]) + 4 * usize::from(port)])
    } else {
        None
    }
}

impl Scene<'_> {
    // Of the function's inputs.
    fn input_port(&self, port: u8) -> Option<u8>
        ensures { result ≡ port_of (get_elem? (judged self.now).inputs port) }
    {
        let at = self.head.place;
        if port < self.s[at + 2] {
            Some(self.s[at + 6 + usize::from(port)])
        } else {
            None
        }
    }

    // Of a call of the id.
    fn callee_port(&self, id: usize, port: u8) -> Option<u8>
        ensures { result ≡ port_of (get_elem? (outputs_of (find_function id (early self.now))) port) }
    {
        let place = self.earlier(id)?;
        output_port(self.s, place, port)
    }

    // Of the node at `at`.
    fn node_port(&self, at: usize, port: u8) -> Option<u8>
        requires { ReadsNode self.now.s.now at }
        ensures { result ≡ port_of (get_elem? (gives_of (early self.now) (node_at self.now.s.now at) (node_at self.now.s.now at).payload) port) }
    {
        let row = ports::ports_of(self.s[at + 2]);
        if row.form.is_call() {
            self.callee_port(reader::callee_at(self.s, at), port)
        } else {
            row_port(row, self.s[at + 3], port)
        }
    }

    // Of the reference at `at`; its node is looked up.
    fn reference_port(&self, at: usize) -> Option<u8>
        requires { at + 3 ≤ length self.now.s.now }
        ensures { result ≡ type_at self.now.s.now (early self.now) self.now.head.place at }
    {
        let id = u16_at(self.s, at);
        let port = self.s[at + 2];
        if id == 0 {
            return self.input_port(port);
        }
        let found = reader::find_node(self.s, self.head.first, self.head.count, id)?;
        self.node_port(found.place, port)
    }

    // Of the reference at `at`, whose slot holds i.
    fn slot_port(&self, i: usize, at: usize) -> Option<u8>
        requires { (at + 3 ≤ length self.now.s.now) × (i ≡ target (judged self.now).nodes (some (reference self.now.s.now at))) }
        ensures { result ≡ type_at self.now.s.now (early self.now) self.now.head.place at }
    {
        let id = u16_at(self.s, at);
        let port = self.s[at + 2];
        if id == 0 {
            self.input_port(port)
        } else if i < self.head.count {
            self.node_port(self.node(i), port)
        } else {
            None
        }
    }
}

// ---- the types that are wanted

impl Scene<'_> {
    // The entries of the outputs.
    pub fn outputs_good(&self) -> Result<(), Refusal>
        ensures { outcome result ≡ outputs_checked self.now.s.now (early self.now) self.now.head.place (judged self.now).outputs }
    {
        let begin = self.head.place + 6 + usize::from(self.s[self.head.place + 2]);
        for i in 0..usize::from(self.s[self.head.place + 3]) {
            let at = begin + 4 * i;
            let Some(ty) = self.reference_port(at + 1) else {
                return Err(Fault::NoPort.at(at + 1));
            };
            if ty != self.s[at] {
                return Err(Fault::WrongType.at(at + 1));
            }
        }
        Ok(())
    }

    // The references of node i.
    fn references_good(
        &self,
        targets: &[u16; SLOT_LIMIT],
        want: Want,
        reads: Reads,
        i: usize,
    ) -> Result<(), Refusal>
        requires { WantFits self.now.s.now reads.count want × (reads.first + 3 * reads.count ≤ length self.now.s.now) × (reads.count ≤ operand_limit) × (i < node_limit) × RowIs self.now.s.now self.now.head.place reads.first reads.count i targets.now }
        ensures { outcome result ≡ references_checked self.now.s.now (early self.now) self.now.head.place (wants_list self.now.s.now reads.count want) (references reads.count self.now.s.now reads.first) }
    {
        for j in 0..reads.count {
            let at = reads.first + 3 * j;
            let slot = usize::from(targets[OPERAND_LIMIT * i + j]);
            let Some(ty) = self.slot_port(slot, at) else {
                return Err(Fault::NoPort.at(at));
            };
            if ty != want.nth(self.s, j) {
                return Err(Fault::WrongType.at(at));
            }
        }
        Ok(())
    }

    // What node i reads.
    fn node_good(&self, targets: &[u16; SLOT_LIMIT], i: usize) -> Result<(), Refusal>
        requires { RowsAre self.now.s.now self.now.head.place self.now.head.count targets.now × (i < self.now.head.count) × (call_ok (early self.now) (node_place self.now.s.now self.now.head.first i) (node_at self.now.s.now (node_place self.now.s.now self.now.head.first i)).payload ≡ ok tt) }
        ensures { outcome result ≡ node_checked self.now.s.now (early self.now) self.now.head.place (node_at self.now.s.now (node_place self.now.s.now self.now.head.first i)) }
    {
        let at = self.node(i);
        let row = ports::ports_of(self.s[at + 2]);
        match row.form {
            Form::References => {
                let ty = self.s[at + 3];
                let want = Want::Types(ports::own(ty, row.first), ports::own(ty, row.rest));
                self.references_good(targets, want, reader::references_at(self.s, at, row), i)
            }
            Form::Call => {
                let Some(place) = self.earlier(reader::callee_at(self.s, at)) else {
                    return Ok(());
                };
                let arguments = reader::arguments_at(self.s, at);
                self.references_good(targets, Want::Inputs(place), arguments, i)
            }
            _ => Ok(()),
        }
    }

    // What each node reads.
    pub fn nodes_good(&self, targets: &[u16; SLOT_LIMIT]) -> Result<(), Refusal>
        requires { RowsAre self.now.s.now self.now.head.place self.now.head.count targets.now × (calls_checked (early self.now) (judged self.now) ≡ ok tt) }
        ensures { outcome result ≡ each (node_checked self.now.s.now (early self.now) self.now.head.place) (judged self.now).nodes }
    {
        for i in 0..self.head.count {
            self.node_good(targets, i)?;
        }
        Ok(())
    }
}
