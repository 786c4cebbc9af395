// The order and the loops of a function's nodes, by indices alone.
#![tactic(auto)]

ghost use Rattle.std.specs.Prelude.{◌≡◌, false, not, ℕ, ◌+◌, ◌-◌, ◌<◌, ◌≤◌, eqb, length, replicate, IfSome};
ghost use Rattle.std.proofs.lemmas.List.Edits.{sets};
ghost use Rattle.base.specs.Limits.{node_limit, operand_limit};
ghost use Rattle.base.specs.Lists.{member};
ghost use Rattle.order.specs.Indices as Definition;
ghost use Rattle.order.specs.Indices.{first_of, first_in, index_order, marked};
ghost use Rattle.order.specs.Paths.{on_loop, first_on_loop};
ghost use Rattle.order.specs.Walk as Steps;
ghost use Rattle.order.specs.Walk.{walk, visit_from, unmarked};

use base::{NODE_LIMIT, OPERAND_LIMIT, SLOT_LIMIT};
use std::marker::Model;

// The slots of a function's nodes, and how many nodes it has.
#[derive(Clone, Copy)]
struct Slots<'a> {
    targets: &'a [u16; SLOT_LIMIT],
    count: usize,
    ghost few: { count ≤ node_limit },
}

impl Slots<'_> {
    // The first node that node i waits for: one that a slot holds and that is not taken.
    fn waits(self, taken: &[bool; NODE_LIMIT], i: usize) -> Option<usize>
        requires { i < self.count }
        ensures value { result ≡ Definition.waits self.entry.targets.now self.entry.count (marked taken.now) i }
        ensures below { IfSome result (λ w. w < self.entry.count) }
    {
        for j in 0..OPERAND_LIMIT {
            let v = usize::from(self.targets[OPERAND_LIMIT * i + j]);
            if v < self.count && !taken[v] {
                return Some(v);
            }
        }
        None
    }

    // Node i is not taken, and all that it reads is.
    fn eligible(self, taken: &[bool; NODE_LIMIT], i: usize) -> bool
        requires { i < self.count }
        ensures { result ≡ Definition.eligible self.entry.targets.now self.entry.count (marked taken.now) i }
    {
        !taken[i] && self.waits(taken, i).is_none()
    }

    // The first such node from `low` on.
    fn next_from(self, taken: &[bool; NODE_LIMIT], low: usize) -> Option<usize>
        requires { low ≤ self.count }
        ensures { result ≡ first_in (Definition.eligible self.entry.targets.now self.entry.count (marked taken.now)) low self.entry.count }
    {
        // `find`, here and below, makes `schedule` take an eighth more instructions.
        for i in low..self.count {
            if self.eligible(taken, i) {
                return Some(i);
            }
        }
        None
    }

    // The first node from `low` on that is not taken, or the node count.
    fn untaken_from(self, taken: &[bool; NODE_LIMIT], low: usize) -> usize
        requires { low ≤ self.count }
        ensures { result ≡ first_of (λ v. not (marked taken.now v)) low (self.entry.count - low) }
    {
        for i in low..self.count {
            if !taken[i] {
                return i;
            }
        }
        self.count
    }

    // Takes every node that can be ordered; the answer is how many there are. From each node in turn it descends to what
    // that one waits for. A path that comes to a node that was pushed before is left: none of its nodes can be ordered.
    fn take_all(self, taken: &mut [bool; NODE_LIMIT]) -> usize
        requires { taken.old ≡ replicate node_limit false }
        ensures value { result ≡ length (index_order self.entry.targets.now self.entry.count) }
        ensures by_index { (v : ℕ) → marked taken.new v ≡ member v (index_order self.entry.targets.now self.entry.count) }
    {
        // Arrays with a length beside them: this project takes no memory.
        let mut pushed = [false; NODE_LIMIT];
        let mut stack = [0u16; NODE_LIMIT];
        let mut count = 0;
        for root in 0..self.count {
            if pushed[root] {
                continue;
            }
            pushed[root] = true;
            stack[0] = root as u16;
            let mut depth = 1;
            // The path grows and shrinks: no count of steps is known.
            while depth > 0 {
                let v = usize::from(stack[depth - 1]);
                match self.waits(taken, v) {
                    None => {
                        taken[v] = true;
                        count += 1;
                        depth -= 1;
                    }
                    Some(w) => {
                        if pushed[w] {
                            depth = 0;
                        } else {
                            pushed[w] = true;
                            stack[depth] = w as u16;
                            depth += 1;
                        }
                    }
                }
            }
        }
        count
    }

    // The nodes that the slots of node i hold are seen.
    fn visit_all(self, i: usize, walk: &mut Walk)
        requires { i < node_limit }
        ensures { walk.new ≡ visit_from self.entry.targets.now self.entry.count i 0 operand_limit walk.old }
    {
        for s in 0..OPERAND_LIMIT {
            walk.visit(self.count, self.targets[OPERAND_LIMIT * i + s]);
        }
    }

    // Following slots from node i returns to it.
    fn on_loop(self, i: usize) -> bool
        requires { i < self.count }
        ensures { result ≡ on_loop self.entry.targets.now self.entry.count i }
    {
        let mut walk = Walk {
            seen: [false; NODE_LIMIT],
            queue: [0; NODE_LIMIT],
            tail: 0,
        };
        self.visit_all(i, &mut walk);
        let mut head = 0;
        // The queue grows on the way, so no range says where it ends.
        while head < walk.tail {
            let v = usize::from(walk.queue[head]);
            if walk.seen[i] {
                return true;
            }
            self.visit_all(v, &mut walk);
            head += 1;
        }
        walk.seen[i]
    }
}

// Marks of the nodes seen on a walk along slots, and a queue of them, in the order in which they were, that ends before `tail`.
#[derive(Drop)]
struct Walk {
    seen: [bool; NODE_LIMIT],
    queue: [u16; NODE_LIMIT],
    tail: usize,
}

// The queue has room for each node that was not seen.
impl Model for Walk {
    ghost Value = { Steps.Walk };

    ghost view = { λ w. walk w.seen w.queue w.tail };

    ghost invariant = { λ w. w.tail + unmarked w.seen ≡ node_limit };
}

impl Walk {
    // Of n nodes, one that was not seen goes to the queue's end.
    fn visit(&mut self, n: usize, target: u16)
        requires { n ≤ node_limit }
        ensures { self.new ≡ Steps.visit n target self.old }
    {
        let v = usize::from(target);
        if v < n && !self.seen[v] {
            self.seen[v] = true;
            self.queue[self.tail] = target;
            self.tail += 1;
        }
    }
}

// The order of the nodes, always the first not yet taken whose slots are all taken; the answer is how many it has.
pub fn schedule(targets: &[u16; SLOT_LIMIT], n: usize, order: &mut [u16; NODE_LIMIT]) -> usize
    requires { n ≤ node_limit }
    ensures value { result ≡ length (index_order targets.now n) }
    ensures order_after { order.new ≡ sets order.old 0 (index_order targets.now n) }
{
    let slots = Slots { targets, count: n };
    let mut taken = [false; NODE_LIMIT];
    let mut low = 0;
    for count in 0..n {
        let Some(i) = slots.next_from(&taken, low) else {
            return count;
        };
        taken[i] = true;
        order[count] = i as u16;
        low = slots.untaken_from(&taken, low);
    }
    n
}

// Every node can be ordered.
pub fn orderable(targets: &[u16; SLOT_LIMIT], n: usize) -> bool
    requires { n ≤ node_limit }
    ensures { result ≡ eqb (length (index_order targets.now n)) n }
{
    let mut taken = [false; NODE_LIMIT];
    Slots { targets, count: n }.take_all(&mut taken) == n
}

// The first node from which following slots returns to it; a node that can be ordered is none.
pub fn first_on_loop(targets: &[u16; SLOT_LIMIT], n: usize) -> Option<usize>
    requires { n ≤ node_limit }
    ensures { result ≡ first_on_loop targets.now n }
{
    let slots = Slots { targets, count: n };
    let mut ordered = [false; NODE_LIMIT];
    slots.take_all(&mut ordered);
    (0..n).find(|i| !ordered[*i] && slots.on_loop(*i))
}
