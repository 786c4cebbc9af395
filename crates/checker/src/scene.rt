// The function that is judged, and where its checks look things up.
ghost use Rattle.std.specs.Prelude.{◌≡◌, ℕ, ◌+◌, ◌<◌, ◌≤◌, true, length, get_or};
ghost use Rattle.base.specs.Limits.{function_limit, node_limit};
ghost use Rattle.graph.specs.Read.{function};
ghost use Rattle.reader.specs.Layout.{node_place, nodes_place, node_count, known};
ghost use Rattle.reader.specs.Find.{ReadsNode};
ghost use Rattle.resolver.specs.Slots.{passed};
ghost use Rattle.checker.specs.Slots.{CalleeIs};

use base::{FUNCTION_LIMIT, NODE_LIMIT};

// The function's place, where its nodes begin, and how many there are.
#[derive(Clone, Copy)]
pub struct Head {
    pub place: usize,
    pub first: usize,
    pub count: usize,
}

// It is judged after those at the first k places of `starts`, and its nodes stand at `places`. The arrays stay whole, with
// their counts beside them: so `reader::find_function` and `resolver::places` take them.
#[derive(Clone, Copy)]
pub struct Scene<'a> {
    pub s: &'a [u8],
    pub starts: &'a [usize; FUNCTION_LIMIT],
    pub k: usize,
    pub head: Head,
    pub places: &'a [u32; NODE_LIMIT],
    pub ghost few: { k ≤ function_limit },
    pub ghost started: { (j : ℕ) → j < k → passed (function node_limit s.now (get_or starts.now j 0)) ≡ true },
    pub ghost reads: { passed (function node_limit s.now head.place) ≡ true },
    pub ghost first: { head.first ≡ nodes_place s.now head.place },
    pub ghost count: { head.count ≡ node_count s.now head.place },
    pub ghost fits: { nodes_place s.now head.place ≤ length s.now },
    pub ghost small: { head.count ≤ node_limit },
    pub ghost placed: { (i : ℕ) → i < head.count → get_or places.now i 0 ≡ node_place s.now head.first i },
}

impl Scene<'_> {
    // The place of node i.
    pub fn node(&self, i: usize) -> usize
        requires { i < self.now.head.count }
        ensures place { result ≡ node_place self.now.s.now self.now.head.first i }
        ensures reads { ReadsNode self.now.s.now result }
        ensures fits { result + 4 ≤ length self.now.s.now }
    {
        self.places[i] as usize
    }

    // The place of the earlier function with the id.
    pub fn earlier(&self, id: usize) -> Option<usize>
        ensures { CalleeIs self.now.s.now (known self.now.s.now self.now.starts.now self.now.k) id result }
    {
        let found = reader::find_function(self.s, self.starts, self.k, id)?;
        Some(found.place)
    }
}
