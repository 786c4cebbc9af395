// What stands around the instructions: the header, the addresses of the arguments and of the outputs.
ghost use Rattle.std.specs.Prelude.{◌≡◌, map, ◌+◌, ◌*◌, ◌<◌, ◌≤◌, length, replicate};
ghost use Rattle.std.proofs.lemmas.List.Edits.{sets};
ghost use Rattle.base.specs.Limits.{port_limit, value_limit, address_limit, header_length};
ghost use Rattle.ports.specs.Ports.{widths};
ghost use Rattle.base.specs.Bytes.{all_bytes};
ghost use Rattle.base.specs.Lists.{span};
ghost use Rattle.bytecode.specs.Run.{places, spans};
ghost use Rattle.bytecode.specs.Code.{header_code};
ghost use Rattle.sums.specs.Answers.{types_by};
ghost use Rattle.compiler.specs.Units.{unit_bound};
ghost use Rattle.lowering.specs.Naming.{names};
ghost use Rattle.compiler.specs.Emit.{address_of};
ghost use Rattle.compiler.specs.Whole.{relocate_by};

use super::addresses::{Frame, written};
use super::{NAME_STEP, Pass};
use base::{ADDRESS_LIMIT, PORT_LIMIT, put16};

// The addresses of n arguments, by their type bytes.
pub fn input_places(table: &[u8], at: usize, n: usize) -> [u16; PORT_LIMIT]
    requires { (at + n ≤ length table.now) × (n ≤ port_limit) }
    ensures { result ≡ sets (replicate port_limit 0) 0 (places 0 (types_by 1 n table.now at)) }
{
    let mut ins = [0; PORT_LIMIT];
    let mut w = 0;
    for j in 0..n {
        ins[j] = w as u16;
        w += ports::width(table[at + j]);
    }
    ins
}

// The names of n arguments.
pub fn input_names(n: usize) -> [u16; PORT_LIMIT]
    requires { n ≤ port_limit }
    ensures { result ≡ sets (replicate port_limit 0) 0 (names 0 n) }
{
    let mut ins = [0; PORT_LIMIT];
    for j in 0..n {
        ins[j] = (NAME_STEP * j) as u16;
    }
    ins
}

// n addresses, one after another.
fn put_span(code: &mut [u8], at: usize, a: usize, n: usize)
    requires { (at + 2 * n ≤ length code.old) × (a < address_limit) × (n ≤ value_limit) }
    ensures { code.new ≡ sets code.old at (all_bytes 2 (span a n)) }
{
    for j in 0..n {
        put16(code, at + 2 * j, ((a + j) % ADDRESS_LIMIT) as u16);
    }
}

// The addresses of the output words, by the locations of the outputs and their entries, which begin at `entries`.
pub fn put_outputs(
    pass: Pass,
    table: &[u8],
    entries: usize,
    cells: &[u16],
    frame: Frame<'_>,
    place: &[u16],
    code: &mut [u8],
    at: usize,
)
    requires n_in_bounds { (entries + 4 * length cells.now ≤ length table.now) × (length cells.now ≤ port_limit) × (frame.first ≤ unit_bound) }
    requires entries_in_bounds { at + 2 * widths (types_by 4 (length cells.now) table.now entries) ≤ length code.old }
    ensures { code.new ≡ sets code.old at
        (all_bytes 2 (spans (types_by 4 (length cells.now) table.now entries) (map (relocate_by pass place.now) (map (address_of frame.entry.ins.now frame.entry.first) cells.now)))) }
{
    let mut here = at;
    for (j, &e) in cells.iter().enumerate() {
        let a = usize::from(written(pass, place, frame.address(e)));
        let w = ports::width(table[entries + 4 * j]);
        put_span(code, here, a, w);
        here += 2 * w;
    }
}

pub fn put_header(code: &mut [u8], version: u8, arguments: u8, outputs: u8, count: u16, words: u16)
    requires { header_length ≤ length code.old }
    ensures { code.new ≡ sets code.old 0 (header_code version arguments outputs count words) }
{
    code[0] = 0x49;
    code[1] = 0x46;
    code[2] = 0x52;
    code[3] = version;
    code[4] = 0;
    code[5] = arguments;
    code[6] = outputs;
    code[7] = 0;
    put16(code, 8, count);
    put16(code, 10, words);
}
