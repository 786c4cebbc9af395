// The addresses of locations, and of the operands of an instruction, by their locations.
ghost use Rattle.std.specs.Prelude.{◌≡◌, map, ◌+◌, ◌*◌, ◌≤◌, length};
ghost use Rattle.std.proofs.lemmas.List.Edits.{sets};
ghost use Rattle.base.specs.Limits.{port_limit};
ghost use Rattle.base.specs.Bytes.{all_bytes};
ghost use Rattle.compiler.specs.Units.{unit_bound};
ghost use Rattle.compiler.specs.Emit as Emit;
ghost use Rattle.compiler.specs.Emit.{address_of, noted};
ghost use Rattle.compiler.specs.Whole.{relocate_by};

use super::{NAME_STEP, Pass};
use base::{ADDRESS_LIMIT, PORT_LIMIT, put16};

// A function as a walk opens it: the addresses of its inputs, and the first of its results.
#[derive(Clone, Copy)]
pub struct Frame<'a> {
    pub ins: &'a [u16; PORT_LIMIT],
    pub first: usize,
}

impl Frame<'_> {
    // The address of a location.
    pub fn address(self, e: u16) -> u16
        requires { self.first ≤ unit_bound }
        ensures { result ≡ address_of self.entry.ins.now self.entry.first e }
    {
        let e = usize::from(e);
        if e < PORT_LIMIT {
            self.ins[e]
        } else {
            ((self.first + (e - PORT_LIMIT)) % ADDRESS_LIMIT) as u16
        }
    }
}

// The word of a name, by the places of the values.
pub fn relocate(place: &[u16], a: usize) -> u16
    ensures { result ≡ Emit.relocate place.now a }
{
    let v = a / NAME_STEP;
    let r = a % NAME_STEP;
    if v < place.len() {
        ((usize::from(place[v]) + r) % ADDRESS_LIMIT) as u16
    } else {
        r as u16
    }
}

// The address that a pass writes for a location's.
pub fn written(pass: Pass, place: &[u16], a: u16) -> u16
    ensures { result ≡ relocate_by pass place.now a }
{
    match pass {
        Pass::Survey | Pass::Sequential => a,
        Pass::Addressed => relocate(place, usize::from(a)),
    }
}

// The bytes of the addresses of operands at these locations, as a pass writes them.
pub fn operands(
    pass: Pass,
    cells: &[u16],
    frame: Frame<'_>,
    place: &[u16],
    code: &mut [u8],
    at: usize,
)
    requires { (frame.first ≤ unit_bound) × (at + 2 * length cells.now ≤ length code.old) }
    ensures { code.new ≡ sets code.old at
        (all_bytes 2 (map (relocate_by pass place.now) (map (address_of frame.entry.ins.now frame.entry.first) cells.now))) }
{
    for (j, &e) in cells.iter().enumerate() {
        put16(code, at + 2 * j, written(pass, place, frame.address(e)));
    }
}

// The values of operands at these locations have x.
pub fn note_operands(cells: &[u16], frame: Frame<'_>, place: &mut [u16], x: u16)
    requires { frame.first ≤ unit_bound }
    ensures { place.new ≡ noted place.old x (map (address_of frame.entry.ins.now frame.entry.first) cells.now) }
{
    for &e in cells {
        let v = usize::from(frame.address(e)) / NAME_STEP;
        if v < place.len() {
            place[v] = x;
        }
    }
}

// The addresses of arguments at these locations. In an array that is lent: one handed out is copied whole right behind the stores of
// its parts, for which a processor waits, and a table of many calls took 1.2 times as long.
pub fn arguments(cells: &[u16], frame: Frame<'_>, args: &mut [u16; PORT_LIMIT])
    requires { (frame.first ≤ unit_bound) × (length cells.now ≤ port_limit) }
    ensures { args.new ≡ sets args.old 0 (map (address_of frame.entry.ins.now frame.entry.first) cells.now) }
{
    for (j, &e) in cells.iter().enumerate() {
        args[j] = frame.address(e);
    }
}
