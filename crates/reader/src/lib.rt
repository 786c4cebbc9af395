// A graph table: its records read from untrusted bytes, and the way through one whose reading passed.
#![tactic(auto)]

use value::Value;

mod constants;
mod lookup;
mod nodes;
mod records;

pub use lookup::{end_by, find_function, find_node, node_end, node_place, nodes_place};
pub use nodes::{arguments_at, callee_at, node_at, reads_by, references_at};
pub use records::{
    read_function, read_functions, read_inputs, read_node, read_nodes, read_outputs, read_record,
    read_table,
};

// The bytes of a table's header.
pub const HEADER: usize = 8;

// ---- payloads

// What a node reads: where its references begin, and how many there are.
#[derive(Clone, Copy)]
pub struct Reads {
    pub first: usize,
    pub count: usize,
}

// A constant's value, a call's callee and arguments, or the references.
#[derive(Clone, Copy)]
pub enum Payload {
    Constant(Value),
    Call(usize, Reads),
    References(Reads),
}

// ---- nodes

// A node as read: its id, its place and its kind's own payload. Kind and type are bytes, as in `ports`: the compiler writes them again.
#[derive(Clone, Copy)]
pub struct Node {
    pub id: usize,
    pub place: usize,
    pub kind: u8,
    pub ty: u8,
    pub payload: Payload,
}

// ---- lookups

// Where a node is found: its index among those looked through, and its place.
#[derive(Clone, Copy)]
pub struct Found {
    pub index: usize,
    pub place: usize,
}
