// Ids are single, and a call names an earlier function with its count of arguments.
ghost use Rattle.std.specs.Prelude.{◌≡◌, []};
ghost use Rattle.base.specs.Outcome.{need};
ghost use Rattle.base.specs.Refusals.{outcome};
ghost use Rattle.graph.specs.Judge.{fresh, call_ok};
ghost use Rattle.reader.specs.Layout.{node_at};
ghost use Rattle.reader.specs.Find.{ReadsNode};
ghost use Rattle.checker.specs.Answers.{calls_checked};
ghost use Rattle.checker.specs.Scenes.{early, judged};

use super::scene::Scene;
use base::{Fault, NODE_LIMIT, Refusal, u16_at};

// ---- ids

impl Scene<'_> {
    // No node has the id of an earlier one.
    pub fn fresh_nodes(&self) -> Result<(), Refusal>
        ensures { outcome result ≡ fresh [] (judged self.now).nodes }
    {
        let mut ids = [0u16; NODE_LIMIT];
        for j in 0..self.head.count {
            let at = self.node(j);
            let id = u16_at(self.s, at) as u16;
            if ids[..j].contains(&id) {
                return Err(Fault::Repeated.at(at));
            }
            ids[j] = id;
        }
        Ok(())
    }
}

// ---- calls

impl Scene<'_> {
    // The node at `at` is no call, or a call of an earlier function with its count of arguments.
    fn call_good(&self, at: usize) -> bool
        requires { ReadsNode self.now.s.now at }
        ensures { call_ok (early self.now) at (node_at self.now.s.now at).payload ≡ need result 10 at }
    {
        let form = ports::ports_of(self.s[at + 2]).form;
        if !form.is_call() {
            return true;
        }
        let Some(place) = self.earlier(reader::callee_at(self.s, at)) else {
            return false;
        };
        reader::arguments_at(self.s, at).count == usize::from(self.s[place + 2])
    }

    // Each call is good.
    pub fn calls_good(&self) -> Result<(), Refusal>
        ensures { outcome result ≡ calls_checked (early self.now) (judged self.now) }
    {
        for j in 0..self.head.count {
            let at = self.node(j);
            if !self.call_good(at) {
                return Err(Fault::Callee.at(at));
            }
        }
        Ok(())
    }
}
