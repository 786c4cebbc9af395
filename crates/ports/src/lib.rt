// The port list, held once as a constant table of rows.
#![tactic(auto)]

ghost use Rattle.std.specs.Prelude.{◌≡◌};
ghost use Rattle.ports.specs.Kinds.{kind_of};
ghost use Rattle.ports.specs.Ports as Definition;
ghost use Rattle.ports.specs.Ports.{ports_of};

use base::KIND_LIMIT;

mod derived;

pub use derived::{is_type, legal, own, width};

// What stands behind the head of a node of a kind. Absent: there is no such kind.
#[derive(Clone, Copy, PartialEq, Eq)]
pub enum Form {
    Absent,
    Constant,
    References,
    Call,
}

// A row: the kind's form, the bytes behind a node's head (of a call those before its references), its operands with
// the type of the first and of the others, its results with their type, and the words of all results. Type 0 stands
// for T; a kind with T has words 0.
#[derive(Clone, Copy)]
pub struct Ports {
    pub form: Form,
    pub bytes: u8,
    pub operands: u8,
    pub first: u8,
    pub rest: u8,
    pub results: u8,
    pub result: u8,
    pub words: u8,
}

// Rows are written out, as a constant's value calls no function.
const ABSENT: Ports = Ports {
    form: Form::Absent,
    bytes: 0,
    operands: 0,
    first: 0,
    rest: 0,
    results: 0,
    result: 0,
    words: 0,
};

const TYPED_1: Ports = Ports {
    form: Form::References,
    bytes: 3,
    operands: 1,
    first: 0,
    rest: 0,
    results: 1,
    result: 0,
    words: 0,
};

const TYPED_2: Ports = Ports {
    bytes: 6,
    operands: 2,
    ..TYPED_1
};

const TYPED_3: Ports = Ports {
    bytes: 9,
    operands: 3,
    ..TYPED_1
};

const TYPED_4: Ports = Ports {
    bytes: 12,
    operands: 4,
    ..TYPED_1
};

const CONSTANT: Ports = Ports {
    form: Form::Constant,
    bytes: 8,
    operands: 0,
    first: 0,
    rest: 0,
    results: 1,
    result: 1,
    words: 1,
};

const CONSTVEC: Ports = Ports {
    bytes: 24,
    result: 2,
    words: 3,
    ..CONSTANT
};

const CONSTMAT: Ports = Ports {
    bytes: 128,
    result: 3,
    words: 16,
    ..CONSTANT
};

const COMPOSE_VECTOR: Ports = Ports {
    form: Form::References,
    bytes: 9,
    operands: 3,
    first: 1,
    rest: 1,
    results: 1,
    result: 2,
    words: 3,
};

const VECTOR_FROM_SCALAR: Ports = Ports {
    form: Form::References,
    bytes: 3,
    operands: 1,
    first: 1,
    rest: 1,
    results: 1,
    result: 2,
    words: 3,
};

const DECOMPOSE_VECTOR: Ports = Ports {
    form: Form::References,
    bytes: 3,
    operands: 1,
    first: 2,
    rest: 2,
    results: 3,
    result: 1,
    words: 3,
};

const COMPOSE_MATRIX: Ports = Ports {
    form: Form::References,
    bytes: 48,
    operands: 16,
    first: 1,
    rest: 1,
    results: 1,
    result: 3,
    words: 16,
};

const MATRIX_FROM_VECTORS: Ports = Ports {
    form: Form::References,
    bytes: 12,
    operands: 4,
    first: 2,
    rest: 2,
    results: 1,
    result: 3,
    words: 16,
};

const DOT: Ports = Ports {
    form: Form::References,
    bytes: 6,
    operands: 2,
    first: 2,
    rest: 2,
    results: 1,
    result: 1,
    words: 1,
};

const CROSS: Ports = Ports {
    result: 2,
    words: 3,
    ..DOT
};

const MATVEC: Ports = Ports { first: 3, ..CROSS };

const TRANSPOSE: Ports = Ports {
    form: Form::References,
    bytes: 3,
    operands: 1,
    first: 3,
    rest: 3,
    results: 1,
    result: 3,
    words: 16,
};

const CALL: Ports = Ports {
    form: Form::Call,
    bytes: 3,
    operands: 0,
    first: 0,
    rest: 0,
    results: 0,
    result: 0,
    words: 0,
};

// Kind n stands at n; there is no kind 0.
pub const PORTS: [Ports; KIND_LIMIT] = [
    ABSENT,
    TYPED_2,
    TYPED_2,
    TYPED_2,
    TYPED_2,
    CONSTANT,
    CONSTVEC,
    CONSTMAT,
    COMPOSE_VECTOR,
    VECTOR_FROM_SCALAR,
    DECOMPOSE_VECTOR,
    COMPOSE_MATRIX,
    MATRIX_FROM_VECTORS,
    MATRIX_FROM_VECTORS,
    DOT,
    CROSS,
    MATVEC,
    TRANSPOSE,
    TYPED_2,
    TYPED_2,
    TYPED_1,
    TYPED_2,
    TYPED_4,
    TYPED_3,
    CALL,
];

// The whole table.
pub fn rows() -> [Ports; KIND_LIMIT]
    ensures { result ≡ Definition.rows }
{
    PORTS
}

// The same, of which a look reads only one row.
static ROWS: [Ports; KIND_LIMIT] = PORTS;

// The row of a kind byte, as the table has it. Every byte has a row, that of no kind too: so kinds are bytes here and no enum, which
// would ask more of callers.
pub fn ports_of(kind: u8) -> Ports
    ensures { result ≡ ports_of (kind_of kind) }
{
    let at = usize::from(kind);
    if at < KIND_LIMIT { ROWS[at] } else { ABSENT }
}
