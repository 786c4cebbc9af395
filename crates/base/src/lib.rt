// Limits, and numbers in bytes, the lowest byte first.
#![tactic(auto)]

ghost use Rattle.std.specs.Prelude.{◌≡◌, ◌+◌, ◌<◌, ◌≤◌, ◌^◌, max, length};
ghost use Rattle.std.proofs.lemmas.List.Edits.{sets};
ghost use Rattle.base.specs.Limits.{within_limits};
ghost use Rattle.base.specs.Bytes.{byte, u16, u64, bytes_of};

mod refusal;

pub use refusal::{Fault, Refusal};

// ---- limits, each in one place; `specs/Limits.antt` has the same

// Functions of a table.
pub const FUNCTION_LIMIT: usize = 16;
// Inputs and outputs of a function, arguments of a call.
pub const PORT_LIMIT: usize = 8;
// Nodes of a function.
pub const NODE_LIMIT: usize = 256;
// Kinds of nodes, with the 0 that is none.
pub const KIND_LIMIT: usize = 25;
// Operands of a node.
pub const OPERAND_LIMIT: usize = 16;
// References of a function's nodes, with room for the most operands at each. Arrays of all nodes are flat, as their clauses have them.
pub const SLOT_LIMIT: usize = NODE_LIMIT * OPERAND_LIMIT;
// Operations and words of a function that can be compiled.
pub const OPERATION_LIMIT: usize = 4096;

pub const WORD_LIMIT: usize = 8192;
// Values of a list that can be compiled: its inputs and its results.
pub const PLACED_LIMIT: usize = PORT_LIMIT + OPERATION_LIMIT;
// Words of a value: a matrix has the most.
pub const VALUE_LIMIT: usize = 16;
// Bytes of one instruction, with the most operands and a matrix as its constant, and of all instructions of a function
// that can be compiled.
pub const INSTRUCTION_LIMIT: usize = 2 + 2 * OPERAND_LIMIT + 8 * VALUE_LIMIT;

pub const CODE_LIMIT: usize = OPERATION_LIMIT * INSTRUCTION_LIMIT;
// The bytes of a code's header.
pub const HEADER_LENGTH: usize = 12;
// Addresses in a code take 16 bits.
pub const ADDRESS_LIMIT: usize = 65536;
// A table's length field takes 16 bits.
pub const TABLE_LIMIT: usize = 65536;
// References of a table's nodes: they are densest in nodes with the most operands, 16 in 52 bytes.
pub const REFERENCE_LIMIT: usize = TABLE_LIMIT * OPERAND_LIMIT / (4 + 3 * OPERAND_LIMIT) + 1;
// Words of all inputs, and of all outputs.
pub const PORT_WORD_LIMIT: usize = PORT_LIMIT * VALUE_LIMIT;
// Points of one call.
pub const POINT_LIMIT: usize = 1024;
// No node: an index that no node has. A number and no `Option`, since slots are numbers of 16 bits, in clauses too.
pub const NO_NODE: u16 = 0xFFFF;

// Whether a function with these sums can be compiled.
pub fn within_limits(operations: usize, words: usize) -> bool
    ensures { result ≡ within_limits operations words }
{
    operations <= OPERATION_LIMIT && words <= WORD_LIMIT
}

// ---- reading inside a slice

pub fn byte_at(s: &[u8], at: usize) -> usize
    requires { at < length s.now }
    ensures { (result ≡ byte s.now at) × (result < 256) }
{
    usize::from(s[at])
}

pub fn u16_at(s: &[u8], at: usize) -> usize
    requires { at + 2 ≤ length s.now }
    ensures { (result ≡ u16 s.now at) × (result < 65536) }
{
    usize::from(u16::from_le_bytes([s[at], s[at + 1]]))
}

pub fn u64_at(s: &[u8], at: usize) -> u64
    requires { at + 8 ≤ length s.now }
    ensures { result ≡ u64 s.now at }
{
    let mut bytes = [0; 8];
    bytes.copy_from_slice(&s[at..at + 8]);
    u64::from_le_bytes(bytes)
}

// ---- writing

pub fn put16(s: &mut [u8], at: usize, x: u16)
    requires { at + 2 ≤ length s.old }
    ensures { s.new ≡ sets s.old at (bytes_of 2 x) }
{
    s[at..at + 2].copy_from_slice(&x.to_le_bytes());
}

pub fn put64(s: &mut [u8], at: usize, x: u64)
    requires { at + 8 ≤ length s.old }
    ensures { s.new ≡ sets s.old at (bytes_of 8 x) }
{
    s[at..at + 8].copy_from_slice(&x.to_le_bytes());
}
