// The records of a table, one after another: each fits, or the first fault is told.
ghost use Rattle.std.specs.Prelude.{◌≡◌, ◌+◌, ◌*◌, ◌≤◌};
ghost use Rattle.base.specs.Refusals.{outcome};
ghost use Rattle.ports.specs.Kinds.{kind_of};
ghost use Rattle.ports.specs.Ports.{ports_of, form_of};
ghost use Rattle.ports.specs.declared.Form as Forms;
ghost use Rattle.graph.specs.Format.{format_of};
ghost use Rattle.graph.specs.Read.{inputs, outputs, in_range, payload, node, nodes, function, functions, parse};
ghost use Rattle.reader.specs.Records.{record_at, entries, payload_read, node_read, seen, next, behind};

use super::constants::constant_at;
use super::{HEADER, Node, Payload, Reads};
use base::{FUNCTION_LIMIT, Fault, NODE_LIMIT, PORT_LIMIT, Refusal, u16_at};
use ports::{Form, Ports};

// The record of n bytes at `at`: where it ends.
// None where it does not fit: each reader goes on only with a record that fitted, and says Truncated at its own place.
pub fn read_record(s: &[u8], at: usize, n: usize) -> Option<usize>
    ensures { result ≡ record_at s.now at n }
{
    if at <= s.len() && n <= s.len() - at {
        Some(at + n)
    } else {
        None
    }
}

fn read_constant(s: &[u8], at: usize, kind: u8, row: Ports) -> Result<(Payload, usize), Refusal>
    requires { (row ≡ ports_of (kind_of kind)) × (row.form ≡ Forms.Form.Constant) }
    ensures { outcome result ≡ payload_read (kind_of kind) at (payload Forms.Form.Constant (kind_of kind) s.now at) }
{
    let ty = row.result;
    let n = ports::width(ty);
    let Some(end) = read_record(s, at, 8 * n) else {
        return Err(Fault::Truncated.at(at));
    };
    if !value::constants_allowed(s, at, n) {
        return Err(Fault::Constant.at(at));
    }
    Ok((Payload::Constant(constant_at(s, at, ty)), end))
}

fn read_call(s: &[u8], at: usize, kind: u8) -> Result<(Payload, usize), Refusal>
    ensures { outcome result ≡ payload_read (kind_of kind) at (payload Forms.Form.Call (kind_of kind) s.now at) }
{
    let Some(begin) = read_record(s, at, 3) else {
        return Err(Fault::Truncated.at(at));
    };
    let count = usize::from(s[at + 2]);
    if PORT_LIMIT < count {
        return Err(Fault::Field.at(at));
    }
    let Some(end) = read_record(s, begin, 3 * count) else {
        return Err(Fault::Truncated.at(begin));
    };
    let arguments = Reads {
        first: begin,
        count,
    };
    Ok((Payload::Call(u16_at(s, at), arguments), end))
}

fn read_references(s: &[u8], at: usize, kind: u8, row: Ports) -> Result<(Payload, usize), Refusal>
    requires { row ≡ ports_of (kind_of kind) }
    ensures { outcome result ≡ payload_read (kind_of kind) at (payload Forms.Form.References (kind_of kind) s.now at) }
{
    let count = usize::from(row.operands);
    let Some(end) = read_record(s, at, 3 * count) else {
        return Err(Fault::Truncated.at(at));
    };
    Ok((Payload::References(Reads { first: at, count }), end))
}

// The payload of a kind with this row.
fn read_payload(s: &[u8], at: usize, kind: u8, row: Ports) -> Result<(Payload, usize), Refusal>
    requires { row ≡ ports_of (kind_of kind) }
    ensures { outcome result ≡ payload_read (kind_of kind) at (payload (form_of (kind_of kind)) (kind_of kind) s.now at) }
{
    match row.form {
        Form::Absent => Err(Fault::Field.at(at)),
        Form::Constant => read_constant(s, at, kind, row),
        Form::References => read_references(s, at, kind, row),
        Form::Call => read_call(s, at, kind),
    }
}

pub fn read_node(s: &[u8], at: usize) -> Result<(Node, usize), Refusal>
    ensures { outcome result ≡ node_read (node s.now at) }
{
    let Some(begin) = read_record(s, at, 4) else {
        return Err(Fault::Truncated.at(at));
    };
    let id = u16_at(s, at);
    let kind = s[at + 2];
    let ty = s[at + 3];
    if id < 1 {
        return Err(Fault::Field.at(at));
    }
    let row = ports::ports_of(kind);
    if !row.form.exists() || !row.type_fits(ty) {
        return Err(Fault::Field.at(at));
    }
    let (payload, end) = read_payload(s, begin, kind, row)?;
    let node = Node {
        id,
        place: at,
        kind,
        ty,
        payload,
    };
    Ok((node, end))
}

// The nodes of a function: where they end.
pub fn read_nodes(s: &[u8], at: usize, n: usize) -> Result<usize, Refusal>
    ensures { outcome result ≡ next (nodes n s.now at) }
{
    let mut p = at;
    for _ in 0..n {
        p = read_node(s, p)?.1;
    }
    Ok(p)
}

// ---- functions

// n entries of `size` bytes, a type byte in front of each: where they end.
fn read_entries(s: &[u8], at: usize, n: usize, size: usize) -> Result<usize, Refusal>
    requires { 1 ≤ size }
    ensures { outcome result ≡ behind (at + size * n) (entries size n s.now at) }
{
    let mut p = at;
    for _ in 0..n {
        let Some(end) = read_record(s, p, size) else {
            return Err(Fault::Truncated.at(p));
        };
        if !ports::is_type(s[p]) {
            return Err(Fault::Field.at(p));
        }
        p = end;
    }
    Ok(p)
}

// The type bytes of n inputs.
pub fn read_inputs(s: &[u8], at: usize, n: usize) -> Result<usize, Refusal>
    ensures { outcome result ≡ behind (at + 1 * n) (inputs n s.now at) }
{
    read_entries(s, at, n, 1)
}

// The entries of n outputs.
pub fn read_outputs(s: &[u8], at: usize, n: usize) -> Result<usize, Refusal>
    ensures { outcome result ≡ behind (at + 4 * n) (outputs n s.now at) }
{
    read_entries(s, at, n, 4)
}

// The fields of a function's head are in their ranges; it has at most `limit` nodes.
fn in_range(
    id: usize,
    input_count: usize,
    output_count: usize,
    node_count: usize,
    limit: usize,
) -> bool
    ensures { result ≡ in_range limit id input_count output_count node_count }
{
    1 <= id
        && input_count <= PORT_LIMIT
        && (1 <= output_count && output_count <= PORT_LIMIT)
        && node_count <= limit
}

// A function of at most `limit` nodes: where it ends.
pub fn read_function(s: &[u8], at: usize, limit: usize) -> Result<usize, Refusal>
    ensures { outcome result ≡ next (function limit s.now at) }
{
    let Some(begin) = read_record(s, at, 6) else {
        return Err(Fault::Truncated.at(at));
    };
    let id = u16_at(s, at);
    let input_count = usize::from(s[at + 2]);
    let output_count = usize::from(s[at + 3]);
    let node_count = u16_at(s, at + 4);
    if !in_range(id, input_count, output_count, node_count, limit) {
        return Err(Fault::Field.at(at));
    }
    let outputs = read_inputs(s, begin, input_count)?;
    let nodes = read_outputs(s, outputs, output_count)?;
    read_nodes(s, nodes, node_count)
}

// n functions, one after another: where they end. As `read_nodes`, but for what is read: one function of both would take a closure
// with a law, for three lines.
pub fn read_functions(s: &[u8], at: usize, n: usize, limit: usize) -> Result<usize, Refusal>
    ensures { outcome result ≡ next (functions limit n s.now at) }
{
    let mut p = at;
    for _ in 0..n {
        p = read_function(s, p, limit)?;
    }
    Ok(p)
}

// The whole table: all of it was read, or the first of the faults 1 to 8.
pub fn read_table(s: &[u8]) -> Result<(), Refusal>
    ensures { outcome result ≡ seen (parse (format_of s.now) s.now) }
{
    if s.len() < HEADER {
        return Err(Fault::TableShort.at(0));
    }
    if s[0] != b'I' || s[1] != b'F' || s[2] != b'G' {
        return Err(Fault::Mark.at(0));
    }
    if u16_at(s, 3) != 1 {
        return Err(Fault::TableVersion.at(3));
    }
    if u16_at(s, 6) != s.len() {
        return Err(Fault::Length.at(6));
    }
    let count = usize::from(s[5]);
    if count < 1 || FUNCTION_LIMIT < count {
        return Err(Fault::Field.at(5));
    }
    let end = read_functions(s, HEADER, count, NODE_LIMIT)?;
    if end == s.len() {
        Ok(())
    } else {
        Err(Fault::Leftover.at(end))
    }
}
