// The numbers that a graph keeps about its nodes' states.
ghost use Rattle.std.specs.Prelude.{◌≡◌, ◌+◌, ◌^◌, ◌<◌, ◌≤◌, not, if◌then◌else◌};
ghost use Rattle.records.specs.Nodes.{same_state, in_state};
ghost use Rattle.records.specs.declared.node.NodeState.TheVariants.{Hidden, Disabled};
ghost use Rattle.graph.specs.Adding.{stats_of};
ghost use Rattle.graph.specs.Model.{model};
ghost use Rattle.graph.specs.Tallies.{one, risen};

use crate::raw::RawInstGraph;
use records::node::{Node, NodeState};

// How many nodes are hidden and disabled, and how often a state has changed.
#[derive(Clone, Copy, PartialEq, Eq, Debug, Default)]
pub struct GraphStats {
    pub hidden: u32,
    pub disabled: u32,
    pub generation: u32,
}

impl GraphStats {
    // Puts a counted node into a state, and tells whether that changed it.
    pub(crate) fn set_state(&mut self, node: &mut Node, state: NodeState) -> bool
        requires hidden { (one Hidden node.old ≤ self.old.hidden) × (self.old.hidden + 1 < 2 ^ 32) }
        requires disabled { (one Disabled node.old ≤ self.old.disabled) × (self.old.disabled + 1 < 2 ^ 32) }
        ensures answer { result ≡ not (same_state node.old.state state) }
        ensures node { node.new ≡ in_state state node.old }
        ensures hidden { self.new.hidden + one Hidden node.old ≡ self.old.hidden + one Hidden node.new }
        ensures disabled { self.new.disabled + one Disabled node.old ≡ self.old.disabled + one Disabled node.new }
        ensures generation { self.new.generation ≡ (if result then risen self.old.generation else self.old.generation) }
    {
        if node.state == state {
            return false;
        }
        self.generation = self.generation.wrapping_add(1);
        // Two matches are plainer than a function that lends the counter of a state.
        match node.state {
            NodeState::Disabled => self.disabled -= 1,
            NodeState::Hidden => self.hidden -= 1,
            NodeState::Visible => {}
        }
        match state {
            NodeState::Disabled => self.disabled += 1,
            NodeState::Hidden => self.hidden += 1,
            NodeState::Visible => {}
        }
        node.state = state;
        true
    }
}

impl RawInstGraph {
    pub fn stats(&self) -> GraphStats
        ensures { result ≡ stats_of (model self.now) }
    {
        self.stats
    }
}
