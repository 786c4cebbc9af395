// The sums of a function, over those of the functions before it.
ghost use Rattle.std.specs.Prelude.{◌≡◌, ℕ, ◌<◌, ◌≤◌, true, get_or};
ghost use Rattle.base.specs.Limits.{function_limit};
ghost use Rattle.reader.specs.Layout.{node_at, nodes_at};
ghost use Rattle.reader.specs.Find.{ReadsNode, ReadsNodes, ReadsFunction};
ghost use Rattle.sums.specs.Position.{place_of, was_read};
ghost use Rattle.sums.specs.Capped.{Small, cap_sums, capped_sums, plain_sums, nodes_sums, Caps, SumsHeld};

use super::{Sums, position_of};
use base::{FUNCTION_LIMIT, u16_at};
use ports::Ports;

// What a node adds that is no call, by its kind's row.
fn plain_sums(row: Ports, ty: u8) -> Sums
    ensures value { result ≡ plain_sums row ty }
    ensures bounded { Small result }
{
    Sums {
        operations: 1,
        words: row.result_words(ty),
        instructions: 1,
        bytes: 2 + 2 * usize::from(row.operands) + 8 * row.constant_words(),
    }
}

// The functions of a table before one: they were read, and their places and sums are found. The public functions take the
// parts: their callers hold the arrays, and must not be asked for more.
#[derive(Clone, Copy)]
pub struct Early<'a> {
    pub table: &'a [u8],
    pub starts: &'a [usize; FUNCTION_LIMIT],
    pub sums: &'a [Sums; FUNCTION_LIMIT],
    pub count: usize,
    pub ghost few: { count ≤ function_limit },
    pub ghost read: { (j : ℕ) → j < count → was_read table.now (place_of table.now j) ≡ true },
    pub ghost places: { (j : ℕ) → j < count → get_or starts.now j 0 ≡ place_of table.now j },
    pub ghost held: { SumsHeld table.now sums.now count },
}

impl Early<'_> {
    // What the node at p adds to the sums of the function behind these.
    fn node_sums(&self, p: usize) -> Sums
        requires { ReadsNode self.now.table.now p }
        ensures { Caps self.now.table.now self.now.count (node_at self.now.table.now p) result }
    {
        let row = ports::ports_of(self.table[p + 2]);
        if !row.form.is_call() {
            return plain_sums(row, self.table[p + 3]);
        }
        let id = reader::callee_at(self.table, p);
        match position_of(self.table, self.starts, self.count, id) {
            Some(g) => {
                let callee = self.sums[g];
                Sums {
                    operations: 1 + callee.operations,
                    ..callee
                }
            }
            None => Sums {
                operations: 1,
                ..Sums::NONE
            },
        }
    }

    // What n of its nodes add, from the place `first` on.
    fn nodes_sums(&self, first: usize, n: usize) -> Sums
        requires { ReadsNodes n self.now.table.now first }
        ensures { result ≡ cap_sums (nodes_sums self.now.table.now self.now.count (nodes_at n self.now.table.now first)) }
    {
        let mut total = Sums::NONE;
        let mut p = first;
        for _ in 0..n {
            total = total.plus(self.node_sums(p));
            p = reader::node_end(self.table, p);
        }
        total
    }

    // The sums of that function, which stands at p.
    pub fn next_sums(&self, p: usize) -> Sums
        requires { (p ≡ place_of self.now.table.now self.now.count) × ReadsFunction self.now.table.now p }
        ensures { result ≡ capped_sums self.now.table.now self.now.count }
    {
        let n = u16_at(self.table, p + 4);
        let first = reader::nodes_place(self.table, p);
        self.nodes_sums(first, n)
    }
}
