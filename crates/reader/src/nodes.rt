// Nodes whose reading passed: what they call, what they read, their constants.
ghost use Rattle.std.specs.Prelude.{◌≡◌, cond, ◌+◌};
ghost use Rattle.ports.specs.Ports.{ports_of, form_of};
ghost use Rattle.ports.specs.declared.Form as Forms;
ghost use Rattle.base.specs.Bytes.{u16};
ghost use Rattle.graph.specs.Read.{payload};
ghost use Rattle.reader.specs.Layout.{kind_at, node_at};
ghost use Rattle.reader.specs.Find.{ReadsNode, ReadsOf};
ghost use Rattle.reader.specs.Records.{arguments_at, operands_at, reads_by, payload_of, node_of};

use super::constants::constant_at;
use super::{Node, Payload, Reads};
use base::u16_at;
use ports::{Form, Ports};

// ---- nodes of a table whose reading passed

// The id that the call at `at` calls.
pub fn callee_at(s: &[u8], at: usize) -> usize
    requires { ReadsNode s.now at × (form_of (kind_at s.now at) ≡ Forms.Form.Call) }
    ensures { result ≡ u16 s.now (at + 4) }
{
    u16_at(s, at + 4)
}

// The arguments of the call at `at`.
pub fn arguments_at(s: &[u8], at: usize) -> Reads
    requires { ReadsNode s.now at × (form_of (kind_at s.now at) ≡ Forms.Form.Call) }
    ensures { (result ≡ arguments_at s.now at) × ReadsOf s.now at result }
{
    Reads {
        first: at + 4 + 3,
        count: usize::from(s[at + 4 + 2]),
    }
}

// The references of the node at `at`, whose kind has this row.
pub fn references_at(s: &[u8], at: usize, row: Ports) -> Reads
    requires { ReadsNode s.now at × (row ≡ ports_of (kind_at s.now at)) × (row.form ≡ Forms.Form.References) }
    ensures { (result ≡ operands_at at row.operands) × ReadsOf s.now at result }
{
    Reads {
        first: at + 4,
        count: usize::from(row.operands),
    }
}

// The payload of the node at `at`, whose kind has this row.
fn payload_at(s: &[u8], at: usize, row: Ports) -> Payload
    requires { ReadsNode s.now at × (row ≡ ports_of (kind_at s.now at)) }
    ensures { result ≡ payload_of (kind_at s.now at) (at + 4) (node_at s.now at).payload }
{
    match row.form {
        Form::Absent => Payload::References(Reads {
            first: at + 4,
            count: 0,
        }),
        Form::Constant => Payload::Constant(constant_at(s, at + 4, row.result)),
        Form::References => Payload::References(references_at(s, at, row)),
        Form::Call => {
            let arguments = arguments_at(s, at);
            Payload::Call(callee_at(s, at), arguments)
        }
    }
}

// The node at `at`.
pub fn node_at(s: &[u8], at: usize) -> Node
    requires { ReadsNode s.now at }
    ensures { result ≡ node_of (node_at s.now at) }
{
    let kind = s[at + 2];
    let payload = payload_at(s, at, ports::ports_of(kind));
    Node {
        id: u16_at(s, at),
        place: at,
        kind,
        ty: s[at + 3],
        payload,
    }
}

// One of two by a choice that is no jump. It stays a function: with a branch in its callers the kind's row made a jump,
// predicted wrongly where kinds are mixed, and a check of the typical table took 1.66 times as long.
pub fn either(first: bool, a: usize, b: usize) -> usize
    ensures { result ≡ cond first a b }
{
    if first { a } else { b }
}

// What the node at `at` reads, whose kind has this row. The byte of a call's argument count is read from every node: a
// jump by the kind would often be predicted wrongly.
pub fn reads_by(s: &[u8], at: usize, row: Ports) -> Reads
    requires { ReadsNode s.now at × (row ≡ ports_of (kind_at s.now at)) }
    ensures { (result ≡ reads_by row s.now at) × ReadsOf s.now at result }
{
    let n = usize::from(s[at + 4 + 2]);
    let call = row.form.is_call();
    Reads {
        first: either(call, at + 4 + 3, at + 4),
        count: either(call, n, usize::from(row.operands)),
    }
}
