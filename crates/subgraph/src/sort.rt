// The search that gives a topological order.
ghost use Rattle.std.specs.Prelude.{◌≡◌, ℕ, ◌+◌, ◌≤◌, Bool, List, length};
ghost use Rattle.records.specs.declared.edge.Edge.{Edge};
ghost use Rattle.graph.specs.Model.{model};
ghost use Rattle.graph.specs.Tables.{IsTableOf};
ghost use Rattle.walks.specs.Exploring.{targets};
ghost use Rattle.walks.specs.Joined.{targets_joined};
ghost use Rattle.subgraph.specs.Sorting.{is_ready};

use graph::raw::RawInstGraph;
use records::edge::Direction;
use tables::stack::Stack;
use walks::explore::Search;

// The search along outgoing edges that goes on to a node once its sources are all visited.
#[derive(Clone, Copy)]
pub(crate) struct Ready;

impl Search for Ready {
    ghost next = { targets };

    ghost takes = { is_ready };

    ghost joined = { targets_joined };

    fn push_next(graph: &RawInstGraph, node: u16, visited: &[bool], stack: &mut Stack) {
        for target in graph.neighbors_directed(node as usize, Direction::Outgoing) {
            if all_appended(graph, target, visited) {
                stack.push(target);
            }
        }
    }
}

// Whether each source of a node is appended.
fn all_appended(graph: &RawInstGraph, node: u16, appended: &[bool]) -> bool
    requires { IsTableOf (model graph.now) appended.now }
    ensures { result ≡ is_ready (model graph.now).edges appended.now node }
{
    graph
        .neighbors_directed(node as usize, Direction::Incoming)
        .all(|source| appended[source as usize])
}
