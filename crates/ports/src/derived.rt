// What follows from a row of the port list: widths, types, whether a kind is a call or an instruction.
ghost use Rattle.std.specs.Prelude.{◌≡◌, ◌<◌, ◌≤◌};
ghost use Rattle.ports.specs.Kinds.{kind_of};
ghost use Rattle.ports.specs.Ports as Definition;
ghost use Rattle.ports.specs.Ports.{has_type, type_fits, constant_in, calling};

use super::{Form, Ports, ports_of};

// The words of a type. This and what follows are said of every type byte, so types are bytes and no enum.
pub fn width(ty: u8) -> usize
    ensures value { result ≡ Definition.width ty }
    ensures bounded { result ≤ 16 }
{
    match ty {
        1 => 1,
        2 => 3,
        _ => 16,
    }
}

// The type byte where a port has T.
pub fn own(ty: u8, port: u8) -> u8
    ensures { result ≡ Definition.own ty port }
{
    if port == 0 { ty } else { port }
}

// 1, 2 and 3 are types.
pub fn is_type(ty: u8) -> bool
    ensures { result ≡ Definition.is_type ty }
{
    matches!(ty, 1..=3)
}

impl Ports {
    // Whether a kind with this row has T: it reads, but the words of its results are left to the type byte.
    pub fn has_type(self) -> bool
        ensures { result ≡ has_type self }
    {
        self.words == 0 && 1 <= self.operands
    }

    // A type byte that a kind with this row may have.
    pub fn type_fits(self, ty: u8) -> bool
        ensures { result ≡ type_fits self ty }
    {
        if self.has_type() {
            is_type(ty)
        } else {
            ty == 0
        }
    }

    // The words of all results of a node of this row and type byte.
    pub fn result_words(self, ty: u8) -> usize
        ensures value { result ≡ Definition.result_words self ty }
        ensures bounded { result < 256 }
    {
        if self.has_type() {
            width(ty)
        } else {
            usize::from(self.words)
        }
    }

    // The words of a node's constant.
    pub fn constant_words(self) -> usize
        ensures { (result ≡ constant_in self.form self.words) × (result < 256) }
    {
        match self.form {
            Form::Constant => usize::from(self.words),
            _ => 0,
        }
    }
}

impl Form {
    // Whether a node of this form is a call.
    pub fn is_call(self) -> bool
        ensures { result ≡ calling self }
    {
        self == Form::Call
    }

    // Whether there is a kind with this row.
    pub fn exists(self) -> bool
        ensures { result ≡ Definition.exists self }
    {
        self != Form::Absent
    }

    // Whether an instruction may have a kind of this form.
    pub fn executable(self) -> bool
        ensures { result ≡ Definition.executable self }
    {
        matches!(self, Form::Constant | Form::References)
    }
}

// A kind there is, with a type byte that it may have.
pub fn legal(kind: u8, ty: u8) -> bool
    ensures { result ≡ Definition.legal (kind_of kind) ty }
{
    let row = ports_of(kind);
    row.form.exists() && row.type_fits(ty)
}
