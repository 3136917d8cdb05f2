// Disabling, showing and hiding nodes.
ghost use Rattle.std.specs.Prelude.{◌≡◌, ℕ, ◌<◌, true, List, length, IfOk, nat_eq, nat_le, position};
ghost use Rattle.std.specs.Iterator.{Drains, IsFinite};
ghost use Rattle.records.specs.Nodes.{is_shown};
ghost use Rattle.graph.specs.Model.{model, outcome};
ghost use Rattle.graph.specs.Adding.{node_at};
ghost use Rattle.graph.specs.HidingLaws.{named, Turned, KeptFirst};
ghost use Rattle.graph.specs.Hiding.{put, Keeps, change, show, add_node_in, disable, all_known, show_in_turn, after_shown, set_visibility, set_visibility_many, reset_visibility_to, keep_first_n};

use crate::raw::RawInstGraph;
use records::node::{NodeKind, NodeState, Visibility};
use records::refusal::Refusal;
use records::stage::{Call, admit};

impl RawInstGraph {
    // Puts a node into a state, and tells whether that changed it.
    pub(crate) fn set_state(&mut self, at: usize, state: NodeState) -> bool
        requires there { at < length (model self.old).nodes }
        requires keeps { Keeps at state (model self.old) }
        ensures { change result (model self.new) ≡ put at state (model self.old) }
    {
        self.stats.set_state(&mut self.nodes[at], state)
    }

    // Adds a node in the state that is asked for, and tells its number.
    pub fn add_node_in(
        &mut self,
        state: NodeState,
        kind: NodeKind,
        item: u32,
    ) -> Result<usize, Refusal>
        ensures { outcome result (model self.new) ≡ add_node_in state kind item (model self.old) }
    {
        let number = self.add_node(kind, item)?;
        self.set_state(number, state);
        Ok(number)
    }

    // Disables a node, and tells whether that changed it.
    pub fn disable(&mut self, number: usize) -> Result<bool, Refusal>
        ensures { outcome result (model self.new) ≡ disable number (model self.old) }
    {
        admit(self.stage(), Call::Disable)?;
        self.known(number)?;
        Ok(self.set_state(number, NodeState::Disabled))
    }

    // Shows or hides a node that is not disabled, and tells whether that changed it.
    fn show(&mut self, at: usize, to: Visibility) -> bool
        ensures change { change result (model self.new) ≡ show to at (model self.old) }
        ensures law { Turned to (nat_eq at) result (model self.old) (model self.new) }
    {
        let enabled = self.nodes.get(at).is_some_and(|node| !node.disabled());
        enabled && self.set_state(at, to.into())
    }

    // Shows or hides one node.
    pub fn set_visibility(&mut self, number: usize, to: Visibility) -> Result<bool, Refusal>
        ensures whole { outcome result (model self.new) ≡ set_visibility number to (model self.old) }
        ensures law { IfOk result (λ changed. Turned to (nat_eq number) changed (model self.old) (model self.new)) }
    {
        admit(self.stage(), Call::SetVisibility)?;
        self.known(number)?;
        Ok(self.show(number, to))
    }

    // Whether every number names a node; else where the first stands that does not.
    fn all_known(&self, numbers: &[usize]) -> Result<(), Refusal>
        ensures { result ≡ all_known numbers.now (model self.now) }
    {
        first_past(numbers, self.nodes.len()).map_or(
            Ok(()),
            |position| Err(Refusal::UnknownNode(position)),
        )
    }

    // Shows or hides nodes in turn, and tells whether that changed any. A `for` asks of an iterator that it can go on and ends.
    fn show_each<I: Iterator<Item = usize>>(&mut self, to: Visibility, numbers: I) -> bool
        requires can { I.can_next numbers }
        requires ends { IsFinite (I.remaining numbers) }
        ensures { (ns : List ℕ) × Drains I.next_gives numbers ns × (change result (model self.new) ≡ show_in_turn to ns (model self.old)) }
    {
        let mut changed = false;
        for number in numbers {
            changed |= self.show(number, to);
        }
        changed
    }

    // Shows or hides the nodes of a list.
    pub fn set_visibility_many(
        &mut self,
        to: Visibility,
        numbers: &[usize],
    ) -> Result<bool, Refusal>
        ensures whole { outcome result (model self.new) ≡ set_visibility_many to numbers.now (model self.old) }
        ensures law { IfOk result (λ changed. Turned to (named numbers.now) changed (model self.old) (model self.new)) }
    {
        admit(self.stage(), Call::SetVisibility)?;
        self.all_known(numbers)?;
        Ok(self.show_each(to, numbers.iter().copied()))
    }

    // Shows or hides every node that is not disabled.
    pub fn reset_visibility_to(&mut self, to: Visibility) -> Result<bool, Refusal>
        ensures whole { outcome result (model self.new) ≡ reset_visibility_to to (model self.old) }
        ensures law { IfOk result (λ changed. Turned to (λ _. true) changed (model self.old) (model self.new)) }
    {
        admit(self.stage(), Call::SetVisibility)?;
        let count = self.nodes.len();
        Ok(self.show_each(to, 0..count))
    }

    // Passes the first n entries of the list that are shown, and hides the rest of it.
    pub fn keep_first_n(&mut self, numbers: &[usize], n: usize) -> Result<bool, Refusal>
        ensures whole { outcome result (model self.new) ≡ keep_first_n numbers.now n (model self.old) }
        ensures law { IfOk result (λ changed. KeptFirst n numbers.now changed (model self.old) (model self.new)) }
    {
        admit(self.stage(), Call::SetVisibility)?;
        self.all_known(numbers)?;
        let rest = self.after_shown(numbers, n);
        Ok(self.show_each(Visibility::Hidden, rest.iter().copied()))
    }

    // What is left of a list after its first n entries that are shown. A chain that finds the nth of them would treat none and
    // too few apart.
    fn after_shown<'a>(&self, numbers: &'a [usize], n: usize) -> &'a [usize]
        ensures { result.now ≡ after_shown n numbers.now (model self.now) }
    {
        let mut left = n;
        let mut rest = numbers;
        while left > 0
            && let Some((number, after)) = rest.split_first()
        {
            if self.is_shown(*number) {
                left -= 1;
            }
            rest = after;
        }
        rest
    }

    fn is_shown(&self, at: usize) -> bool
        ensures { result ≡ is_shown (node_at (model self.now) at) }
    {
        self.nodes.get(at).is_some_and(|node| node.visible())
    }
}

// Where the first number stands that is not below the count.
fn first_past(numbers: &[usize], count: usize) -> Option<usize>
    ensures { result ≡ position (λ n. nat_le count n) numbers.now }
{
    numbers.iter().position(|number| *number >= count)
}
