// The value of one node.
ghost use Rattle.std.specs.Prelude.{◌≡◌, length};
ghost use Rattle.graph.specs.Model.{model};
ghost use Rattle.graph.specs.Tables.{IsTableOf};
ghost use Rattle.analysis.specs.Near.{looking_along};

use crate::analysis::{Course, TopoAnalysis};
use graph::raw::RawInstGraph;
use records::edge::Direction;
use std::iter;
use walk_neighbors::neighbors::neighbors_directed;

// An analysis of a graph, and a table that has an entry for each node.
#[derive(Drop)]
pub struct Values<'a, A: TopoAnalysis> {
    pub(crate) graph: &'a RawInstGraph,
    pub(crate) analysis: &'a A,
    pub(crate) table: &'a [A::Value],
    ghost room: { IsTableOf (model graph.now) table.now },
}

// Which edges a run looks along: forwards a node's incoming ones, else its outgoing ones.
fn looking_along(forward: bool) -> Direction
    ensures { result ≡ looking_along forward }
{
    if forward {
        Direction::Incoming
    } else {
        Direction::Outgoing
    }
}

impl<A: TopoAnalysis> Values<'_, A> {
    ghost use Rattle.std.specs.Prelude.{◌<◌};
    ghost use Rattle.std.specs.Iterator.{AlwaysYields, IsFinite};
    ghost use Rattle.analysis.specs.Near.{near_of};
    ghost use Rattle.analysis.specs.Runs.{value_from};

    // The value of a node from those of its neighbours, which an iterator gives.
    fn join_all<I: Iterator<Item = u16> + Drop>(&self, at: usize, neighbours: I) -> A::Value
        requires within { at < length (model self.now.graph.now).nodes }
        requires can { I.can_next neighbours }
        requires ends { IsFinite (I.remaining neighbours) }
        requires gives { AlwaysYields I.next_gives (λ k. k) neighbours (near_of A.Course.FORWARD A.Course.SKIP_DISABLED (model self.now.graph.now) at) }
        ensures { result ≡ value_from (A.meaning self.now.analysis.now) A.Course.FORWARD A.Course.SKIP_DISABLED (model self.now.graph.now) self.now.table.now at }
    {
        let nodes = self.graph.nodes();
        let node = nodes[at];
        let mut value = self.analysis.start(at, &node);
        for other in neighbours {
            let from = other as usize;
            value = self
                .analysis
                .join(value, at, &node, from, &nodes[from], self.table[from]);
        }
        self.analysis.close(value, at, &node)
    }

    // The value of a node by the rule.
    pub fn value_of(&self, at: usize) -> A::Value
        requires { at < length (model self.now.graph.now).nodes }
        ensures { result ≡ value_from (A.meaning self.now.analysis.now) A.Course.FORWARD A.Course.SKIP_DISABLED (model self.now.graph.now) self.now.table.now at }
    {
        let direction = looking_along(A::Course::FORWARD);
        if !A::Course::SKIP_DISABLED {
            self.join_all(at, self.graph.neighbors_directed(at, direction))
        } else if self.graph.nodes()[at].disabled() {
            self.join_all(at, iter::empty())
        } else {
            self.join_all(at, neighbors_directed(self.graph, at, direction))
        }
    }
}
