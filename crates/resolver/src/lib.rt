// The references of all nodes of a function, resolved to indices.
#![tactic(auto)]

ghost use Rattle.std.specs.Prelude.{◌≡◌, [], cond, ◌+◌, ◌-◌, ◌*◌, ◌^◌, ◌<◌, ◌≤◌, eqb, length, replicate, get_or};
ghost use Rattle.std.proofs.lemmas.List.Edits.{sets};
ghost use Rattle.base.specs.Limits.{node_limit, operand_limit, slot_limit, no_node};
ghost use Rattle.base.specs.Outcome.{ok};
ghost use Rattle.graph.specs.Judge.{fresh};
ghost use Rattle.graph.specs.Read.{references};
ghost use Rattle.reader.specs.Layout.{nodes_at};
ghost use Rattle.reader.specs.Find.{ReadsNodes, ReadsOf};
ghost use Rattle.resolver.specs.Slots.{padded, rows_of, places_of, nodes_by, NodesRead, PlacesRead};
ghost use Rattle.resolver.specs.Groups.{ids_of, named, rows_from, Gathered, Unfound, Marked, FoundAll, GroupDone};

use base::{NO_NODE, NODE_LIMIT, OPERAND_LIMIT, SLOT_LIMIT, u16_at};
use reader::Reads;

// ---- places

// The places of the nodes, by their index.
pub fn places(s: &[u8], first: usize, count: usize, places: &mut [u32; NODE_LIMIT])
    requires { ReadsNodes count s.now first × (count ≤ node_limit) × (length s.now < 2 ^ 32) × (length places.old ≡ node_limit) }
    ensures { places.new ≡ sets places.old 0 (places_of (nodes_at count s.now first)) }
{
    let mut at = first;
    for i in 0..count {
        places[i] = at as u32;
        at = reader::node_end(s, at);
    }
}

// ---- a group of references, of at most `NODE_LIMIT`

// A group that has more references than this has no room for another node.
const GROUP_LIMIT: usize = NODE_LIMIT - OPERAND_LIMIT;

// How many nodes a group has, and how many references they have.
#[derive(Clone, Copy)]
struct Group {
    nodes: usize,
    refs: usize,
}

// The ids that the references from `first` on name.
fn gather_node(s: &[u8], first: usize, wanted: &mut [u16])
    requires { first + 3 * length wanted.old ≤ length s.now }
    ensures { wanted.new ≡ ids_of (references (length wanted.old) s.now first) }
{
    for (j, id) in wanted.iter_mut().enumerate() {
        *id = u16_at(s, first + 3 * j) as u16;
    }
}

fn amount(wanted: u16, id: u16, by: u16) -> u16
    ensures { result ≡ cond (eqb id wanted) by 0 }
{
    if wanted == id { by } else { 0 }
}

// i is found for each of the ids wanted that is `id`, for which nothing was found before. So `NO_NODE` goes down to i,
// which takes fewer instructions than to choose between the two.
fn mark(wanted: &[u16], found: &mut [u16], id: u16, i: u16)
    requires { (length found.old ≡ length wanted.now) × Unfound wanted.now id found.old }
    ensures { Marked wanted.now id i found.old found.new }
{
    let by = NO_NODE - i;
    for r in 0..wanted.len() {
        found[r] -= amount(wanted[r], id, by);
    }
}

// The slots of a node: what was found for its references, and `NO_NODE` behind them.
fn put_slots(slots: &mut [u16], found: &[u16])
    requires { length found.now ≤ length slots.old }
    ensures { slots.new ≡ padded (length slots.old) found.now }
{
    slots.fill(NO_NODE);
    slots[..found.len()].copy_from_slice(found);
}

// ---- a function's nodes

// A table's bytes, and in them the places of a function's nodes, which were read and have ids of their own.
#[derive(Clone, Copy)]
struct Nodes<'a> {
    bytes: &'a [u8],
    places: &'a [u32; NODE_LIMIT],
    count: usize,
    ghost few: { count ≤ node_limit },
    ghost read: { NodesRead bytes.now places.now count },
    ghost fresh: { fresh [] (nodes_by bytes.now places.now 0 count) ≡ ok tt },
}

impl Nodes<'_> {
    // What node i reads.
    fn reads(self, i: usize) -> Reads
        requires { i < self.count }
        ensures { ReadsOf self.entry.bytes.now (get_or self.entry.places.now i 0) result }
    {
        let at = self.places[i] as usize;
        let row = ports::ports_of(self.bytes[at + 2]);
        reader::reads_by(self.bytes, at, row)
    }

    // The ids that the nodes from index i on name, of as many as fit.
    fn gather(self, i: usize, wanted: &mut [u16; NODE_LIMIT]) -> Group
        requires { i < self.count }
        ensures { Gathered self.entry.bytes.now self.entry.places.now i (self.entry.count - i) wanted.old wanted.new result }
    {
        let left = self.count - i;
        let mut refs = 0;
        for nodes in 0..left {
            if GROUP_LIMIT < refs {
                return Group { nodes, refs };
            }
            let reads = self.reads(i + nodes);
            let end = refs + reads.count;
            gather_node(self.bytes, reads.first, &mut wanted[refs..end]);
            refs = end;
        }
        Group { nodes: left, refs }
    }

    // What the ids find among all nodes, in one walk.
    fn find_all(self, wanted: &[u16], found: &mut [u16])
        requires same_length { length found.old ≡ length wanted.now }
        requires nothing { found.old ≡ replicate (length wanted.now) no_node }
        ensures { FoundAll (nodes_by self.entry.bytes.now self.entry.places.now 0 self.entry.count) wanted.now found.new }
    {
        for i in 0..self.count {
            let at = self.places[i] as usize;
            mark(wanted, found, u16_at(self.bytes, at) as u16, i as u16);
        }
    }

    // The rows of some nodes, the first of them node i, from what was found for all their references.
    fn scatter(self, i: usize, nodes: usize, found: &[u16], targets: &mut [u16; SLOT_LIMIT])
        requires within { i + nodes ≤ self.count }
        requires each { length (named (nodes_by self.bytes.now self.places.now i nodes)) ≡ length found.now }
        ensures { targets.new ≡ sets targets.old (operand_limit * i) (rows_from found.now 0 (nodes_by self.entry.bytes.now self.entry.places.now i nodes)) }
    {
        let mut from = 0;
        for n in 0..nodes {
            let at = OPERAND_LIMIT * (i + n);
            let end = from + self.reads(i + n).count;
            put_slots(&mut targets[at..at + OPERAND_LIMIT], &found[from..end]);
            from = end;
        }
    }

    // The rows of the group that begins with node i; the index behind it.
    fn resolve_group(self, i: usize, targets: &mut [u16; SLOT_LIMIT]) -> usize
        requires { i < self.count }
        ensures { GroupDone self.entry.bytes.now self.entry.places.now self.entry.count i targets.old targets.new result }
    {
        // Apart, so that all ids are held against one in vector instructions.
        let mut wanted = [0u16; NODE_LIMIT];
        let mut found = [NO_NODE; NODE_LIMIT];
        let group = self.gather(i, &mut wanted);
        self.find_all(&wanted[..group.refs], &mut found[..group.refs]);
        self.scatter(i, group.nodes, &found[..group.refs], targets);
        i + group.nodes
    }
}

// The slots of the nodes at these places: what each reads, by its index.
pub fn resolve(s: &[u8], places: &[u32; NODE_LIMIT], count: usize, targets: &mut [u16; SLOT_LIMIT])
    requires { PlacesRead s.now places.now 0 count × (count ≤ node_limit) × (length targets.old ≡ slot_limit) × (fresh [] (nodes_by s.now places.now 0 count) ≡ ok tt) }
    ensures { targets.new ≡ sets targets.old 0 (rows_of (nodes_by s.now places.now 0 count) (nodes_by s.now places.now 0 count)) }
{
    let nodes = Nodes {
        bytes: s,
        places,
        count,
    };
    let mut i = 0;
    // A group takes as many nodes as fit, so the steps are not even.
    while i < count {
        i = nodes.resolve_group(i, targets);
    }
}
