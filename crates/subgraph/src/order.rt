// One subgraph and its order.
ghost use Rattle.std.specs.Prelude.{◌≡◌, ◌<◌, ◌≤◌, false, length, slice_index_or};
ghost use Rattle.graph.specs.Model.{model};
ghost use Rattle.records.specs.Edges.{neighbours, history};
ghost use Rattle.graph.specs.Tables.{IsTableOf};
ghost use Rattle.subgraph.specs.Orders.{is_empty, starts, found_from, sorted_from, Shut, NoMore};

use crate::sort::Ready;
use graph::raw::RawInstGraph;
use records::edge::Direction;
use tables::stack::Stack;
use walks::explore::{Both, explore};

// Whether a node has no edges of one direction.
pub(crate) fn no_neighbors(graph: &RawInstGraph, node: u16, direction: Direction) -> bool
    ensures { result ≡ is_empty (neighbours direction (history (model graph.now).edges) node) }
{
    graph
        .neighbors_directed(node as usize, direction)
        .next()
        .is_none()
}

// Of the nodes found, those to which no edge leads.
fn start_nodes(graph: &RawInstGraph, found: &Stack) -> Stack
    ensures { result ≡ starts (model graph.now).edges found.now }
{
    let mut chosen = Stack::new();
    for node in found.as_slice() {
        if no_neighbors(graph, *node, Direction::Incoming) {
            chosen.push(*node);
        }
    }
    chosen
}

// The order of the subgraph of a node, its last node on top.
pub(crate) fn order_from(
    graph: &RawInstGraph,
    root: u16,
    visited: &mut [bool],
    appended: &mut [bool],
) -> Stack
    requires root { root < length (model graph.now).nodes }
    requires visited_room { IsTableOf (model graph.now) visited.old }
    requires appended_room { IsTableOf (model graph.now) appended.old }
    requires shut { Shut (model graph.now).edges visited.old }
    requires unvisited { slice_index_or visited.old root false ≡ false }
    requires within { NoMore (length (model graph.now).nodes) appended.old visited.old }
    ensures is { result ≡ (sorted_from (model graph.now).edges (length (model graph.now).nodes) visited.old appended.old root).order }
    ensures marks { visited.new ≡ (found_from (model graph.now).edges (length (model graph.now).nodes) visited.old root).visited }
    ensures appended { appended.new ≡ (sorted_from (model graph.now).edges (length (model graph.now).nodes) visited.old appended.old root).visited }
{
    let mut stack = Stack::new();
    stack.push(root);
    let mut found = Stack::new();
    explore::<Both>(graph, &mut stack, visited, &mut found);
    let mut chosen = start_nodes(graph, &found);
    let mut order = Stack::new();
    explore::<Ready>(graph, &mut chosen, appended, &mut order);
    order
}
