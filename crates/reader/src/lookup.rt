// The way from a node to the next, and from an id to its node or function. Table and place stay two parameters: the
// laws read a list at a place, and a cursor would only be taken apart again.
ghost use Rattle.std.specs.Prelude.{◌≡◌, ◌+◌, ◌*◌, ◌<◌, ◌≤◌};
ghost use Rattle.ports.specs.Ports.{ports_of};
ghost use Rattle.base.specs.Limits.{function_limit};
ghost use Rattle.reader.specs.Layout.{kind_at, node_end, nodes_at, node_place, nodes_place, known};
ghost use Rattle.reader.specs.Find.{ReadsNode, ReadsNodes, ReadsFunction, ReadsStarts, node_found, function_found};

use super::Found;
use super::nodes::either;
use base::{FUNCTION_LIMIT, u16_at};
use ports::Ports;

// Where the node at `at` ends, whose kind has this row: behind the row's bytes, and a call's arguments.
pub fn end_by(s: &[u8], at: usize, row: Ports) -> usize
    requires { ReadsNode s.now at × (row ≡ ports_of (kind_at s.now at)) }
    ensures { result ≡ node_end s.now at }
{
    let n = usize::from(s[at + 4 + 2]);
    at + 4 + usize::from(row.bytes) + either(row.form.is_call(), 3 * n, 0)
}

// Where the node at `at` ends.
pub fn node_end(s: &[u8], at: usize) -> usize
    requires { ReadsNode s.now at }
    ensures { result ≡ node_end s.now at }
{
    end_by(s, at, ports::ports_of(s[at + 2]))
}

// Where the nodes of the function at `at` begin.
pub fn nodes_place(s: &[u8], at: usize) -> usize
    requires { ReadsFunction s.now at }
    ensures { result ≡ nodes_place s.now at }
{
    at + 6 + usize::from(s[at + 2]) + 4 * usize::from(s[at + 3])
}

// The first with the id among the `count` nodes from the place `first` on. It walks the table's bytes.
pub fn find_node(s: &[u8], first: usize, count: usize, id: usize) -> Option<Found>
    requires { ReadsNodes count s.now first }
    ensures { result ≡ node_found 0 id (nodes_at count s.now first) }
{
    let mut at = first;
    for index in 0..count {
        if u16_at(s, at) == id {
            return Some(Found { index, place: at });
        }
        at = node_end(s, at);
    }
    None
}

// The place of the node of an index, the first standing at `first`.
pub fn node_place(s: &[u8], first: usize, count: usize, index: usize) -> usize
    requires { ReadsNodes count s.now first × (index ≤ count) }
    ensures { result ≡ node_place s.now first index }
{
    let mut at = first;
    for _ in 0..index {
        at = node_end(s, at);
    }
    at
}

// The function of the id among those at the first k places of `starts`. The array is lent whole: its callers fill it
// from the front, and the law `known` reads it below k.
pub fn find_function(
    s: &[u8],
    starts: &[usize; FUNCTION_LIMIT],
    k: usize,
    id: usize,
) -> Option<Found>
    requires { ReadsStarts s.now starts.now k × (k ≤ function_limit) }
    ensures { result ≡ function_found id (known s.now starts.now k) }
{
    for index in (0..k).rev() {
        let place = starts[index];
        if u16_at(s, place) == id {
            return Some(Found { index, place });
        }
    }
    None
}
