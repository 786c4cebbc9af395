// One instruction: what a survey notes of it, and how it is written in version 1 and in version 2.
ghost use Rattle.std.specs.Prelude.{◌≡◌, false, List, [], ◌∷◌, ℕ, suc, ◌+◌, ◌-◌, ◌/◌, ◌<◌, ◌≤◌, length, map, set};
ghost use Rattle.std.proofs.lemmas.List.Edits.{sets};
ghost use Rattle.base.specs.Limits.{reference_limit};
ghost use Rattle.base.specs.Bytes.{bytes_of};
ghost use Rattle.base.specs.Lists.{Each};
ghost use Rattle.ports.specs.Kinds.{kind_of};
ghost use Rattle.ports.specs.Ports.{ports_of, has_type};
ghost use Rattle.value.specs.Values.{words_of};
ghost use Rattle.value.specs.Typed.{Finite};
ghost use Rattle.lowering.specs.Compile.{single};
ghost use Rattle.lowering.specs.Naming.{name_step, sizing};
ghost use Rattle.bytecode.specs.declared.Version.TheVariants.{V1, V2};
ghost use Rattle.compiler.specs.declared.Pass.TheVariants.{Survey, Sequential, Addressed};
ghost use Rattle.compiler.specs.Units.{unit_bound};
ghost use Rattle.compiler.specs.Emit.{address_of, CodeRoom, Walks};

use super::addresses::{Frame, note_operands, operands, relocate};
use super::constants::put_constant;
use super::{NAME_STEP, Pass, Reached};
use base::put16;
use value::Value;

// The number of the instruction behind the one whose result has this name, where m inputs come first.
fn reader_number(next: usize, m: usize) -> u16
    requires { next ≤ unit_bound }
    ensures { result ≡ suc (next / name_step) - m }
{
    let v = next / NAME_STEP;
    if v < m { 0 } else { (v - m + 1) as u16 }
}

// The value of this name has w words.
fn note_width(wide: &mut [u8], next: usize, w: usize)
    requires { w < 256 }
    ensures { wide.new ≡ set wide.old (next / name_step) w }
{
    let v = next / NAME_STEP;
    if v < wide.len() {
        wide[v] = w as u8;
    }
}

// Kind, type and result of an instruction of version 2; the answer is the place behind them.
fn put_addressed(code: &mut [u8], at: usize, kind: u8, ty: u8, res: u16) -> usize
    requires { at + 4 ≤ length code.old }
    ensures { (code.new ≡ sets code.old at (kind ∷ ty ∷ bytes_of 2 res)) × (result ≡ at + 4) }
{
    code[at] = kind;
    code[at + 1] = ty;
    put16(code, at + 2, res);
    at + 4
}

// A survey notes the readers of its operands, which stand at these locations, and the words of its result.
pub fn survey_instruction(
    kind: u8,
    ty: u8,
    cells: &[u16],
    frame: Frame<'_>,
    m: usize,
    place: &mut [u16],
    wide: &mut [u8],
    from: Reached,
) -> Reached
    requires { (frame.first ≤ unit_bound) × (from.cell + length cells.now ≤ reference_limit) × (from.next ≤ unit_bound) }
    ensures { ((code constants : List ℕ) → Walks Survey m code place.old wide.old code place.new wide.new from.at
        (single (sizing V2) kind ty (map (address_of frame.entry.ins.now frame.entry.first) cells.now) constants from.next) result) × (result.cell ≡ from.cell + length cells.now) }
{
    let w = ports::ports_of(kind).result_words(ty);
    note_operands(cells, frame, place, reader_number(from.next, m));
    note_width(wide, from.next, w);
    Reached {
        at: from.at,
        next: from.next + NAME_STEP,
        cell: from.cell + cells.len(),
    }
}

// The versions differ in an instruction's head (no address in version 1, the result's in version 2) and in what the next result takes:
// one function for both would be two arms around two shared lines.

// The instruction of a constant in version 1. Its kind has no T, so that the row alone says how many words it has.
pub fn write_constant(kind: u8, ty: u8, v: Value, code: &mut [u8], from: Reached) -> Reached
    requires { CodeRoom Sequential code.old [] from.at from.next (single (sizing V1) kind ty [] (words_of v) from.next) × Each Finite (words_of v) × (has_type (ports_of (kind_of kind)) ≡ false) }
    ensures { ((m : ℕ) (place wide : List ℕ) → Walks Sequential m code.old place wide code.new place wide from.at
        (single (sizing V1) kind ty [] (words_of v) from.next) result) × (result.cell ≡ from.cell) }
{
    let w = usize::from(ports::ports_of(kind).words);
    code[from.at] = kind;
    code[from.at + 1] = ty;
    let end = put_constant(code, from.at + 2, v);
    Reached {
        at: end,
        next: from.next + w,
        cell: from.cell,
    }
}

// In version 2.
pub fn place_constant(
    kind: u8,
    ty: u8,
    v: Value,
    place: &[u16],
    code: &mut [u8],
    from: Reached,
) -> Reached
    requires { CodeRoom Addressed code.old place.now from.at from.next (single (sizing V2) kind ty [] (words_of v) from.next) × Each Finite (words_of v) }
    ensures { ((m : ℕ) (wide : List ℕ) → Walks Addressed m code.old place.now wide code.new place.now wide from.at
        (single (sizing V2) kind ty [] (words_of v) from.next) result) × (result.cell ≡ from.cell) }
{
    let start = put_addressed(code, from.at, kind, ty, relocate(place, from.next));
    let end = put_constant(code, start, v);
    Reached {
        at: end,
        next: from.next + NAME_STEP,
        cell: from.cell,
    }
}

// The instruction of a node that reads the values at these locations, in version 1.
pub fn write_operation(
    kind: u8,
    ty: u8,
    cells: &[u16],
    frame: Frame<'_>,
    code: &mut [u8],
    from: Reached,
) -> Reached
    requires first_le_unit_bound { (frame.first ≤ unit_bound) × (from.cell + length cells.now ≤ reference_limit) }
    requires code_room { CodeRoom Sequential code.old [] from.at from.next (single (sizing V1) kind ty (map (address_of frame.ins.now frame.first) cells.now) [] from.next) }
    ensures { ((m : ℕ) (place wide : List ℕ) → Walks Sequential m code.old place wide code.new place wide from.at
        (single (sizing V1) kind ty (map (address_of frame.entry.ins.now frame.entry.first) cells.now) [] from.next) result) × (result.cell ≡ from.cell + length cells.now) }
{
    let w = ports::ports_of(kind).result_words(ty);
    code[from.at] = kind;
    code[from.at + 1] = ty;
    operands(Pass::Sequential, cells, frame, &[], code, from.at + 2);
    Reached {
        at: from.at + 2 + 2 * cells.len(),
        next: from.next + w,
        cell: from.cell + cells.len(),
    }
}

// In version 2.
pub fn place_operation(
    kind: u8,
    ty: u8,
    cells: &[u16],
    frame: Frame<'_>,
    place: &[u16],
    code: &mut [u8],
    from: Reached,
) -> Reached
    requires first_le_unit_bound { (frame.first ≤ unit_bound) × (from.cell + length cells.now ≤ reference_limit) }
    requires code_room { CodeRoom Addressed code.old place.now from.at from.next (single (sizing V2) kind ty (map (address_of frame.ins.now frame.first) cells.now) [] from.next) }
    ensures { ((m : ℕ) (wide : List ℕ) → Walks Addressed m code.old place.now wide code.new place.now wide from.at
        (single (sizing V2) kind ty (map (address_of frame.entry.ins.now frame.entry.first) cells.now) [] from.next) result) × (result.cell ≡ from.cell + length cells.now) }
{
    let start = put_addressed(code, from.at, kind, ty, relocate(place, from.next));
    operands(Pass::Addressed, cells, frame, place, code, start);
    Reached {
        at: start + 2 * cells.len(),
        next: from.next + NAME_STEP,
        cell: from.cell + cells.len(),
    }
}
