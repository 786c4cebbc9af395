// The lister: it reads a table on standard input, its first 65,536 bytes, and prints its text.
#![tactic(auto)]

ghost use Rattle.std.specs.Prelude.{◌≤◌, length, IfOk};

use std::io::{self, Read, Write};

// The bytes that it reads of a table.
const INPUT_LIMIT: usize = 65536;

// Reads until `buffer` is full or the input ends, and gives the count. A loop over `read`: std's `read_to_end` takes a heap,
// and `read_exact` fails where the input ends first.
fn read_full<R: Read>(input: &mut R, buffer: &mut [u8]) -> io::Result<usize>
    ensures { IfOk result (λ n. n ≤ length buffer.new) }
{
    let mut n = 0;
    while n < buffer.len() {
        let read = input.read(&mut buffer[n..])?;
        if read == 0 {
            break;
        }
        n += read;
    }
    Ok(n)
}

fn main(rt: HostRuntime) -> io::Result<()> {
    let mut table = [0u8; INPUT_LIMIT];
    let n = read_full(&mut rt.stdin(), &mut table)?;
    let mut text = [0u8; listing::TEXT_LIMIT];
    let length = listing::list_table(&table[..n], &mut text);
    rt.stdout().write_all(&text[..length])
}
