// The stack search, and what it goes on with: outgoing edges, or edges both ways.
ghost use Rattle.std.specs.Prelude.{◌≡◌, ℕ, ◌+◌, ◌≤◌, Bool, List, length, ◌⊎◌};
ghost use Rattle.records.specs.Edges.{history, neighbours};
ghost use Rattle.records.specs.Walks.{Among, Joins};
ghost use Rattle.records.specs.declared.edge.Edge.{Edge};
ghost use Rattle.tables.specs.Marks.{blanks};
ghost use Rattle.tables.specs.Steps.{Below};
ghost use Rattle.graph.specs.Model.{model};
ghost use Rattle.graph.specs.Tables.{IsTableOf};
ghost use Rattle.walks.specs.Exploring.{targets, nexts, is_unvisited, stacked, piled, pending, searched, Left};
ghost use Rattle.walks.specs.Joined.{targets_joined, nexts_joined};

use graph::raw::RawInstGraph;
use records::edge::Direction;
use tables::stack::Stack;

// What a search goes on with from each node that it visits. The marks stay a table of the caller's: a struct that
// held it as a `&mut` beside the stack would be no plainer, since each contract would have to say how the marks come back.
pub trait Search {
    // The nodes that come next.
    ghost next: { List Edge → ℕ → List ℕ };

    // Which of them are pushed where these nodes are visited.
    ghost takes: { List Edge → List Bool → ℕ → Bool };

    // Pushes those of the next nodes that the search takes.
    fn push_next(graph: &RawInstGraph, node: u16, visited: &[bool], stack: &mut Stack)
        requires table { IsTableOf (model graph.now) visited.now }
        requires room { length stack.old + length (next (model graph.now).edges node) ≤ 8193 }
        ensures { stack.new ≡ stacked (takes (model graph.now).edges visited.now) (next (model graph.now).edges node) stack.old };

    // An edge joins a node with each that comes next.
    ghost joined: { (es : List Edge) (n m : ℕ) → Among m (next es n) → Joins es n m ⊎ Joins es m n };
}

// The search along outgoing edges.
#[derive(Clone, Copy)]
pub struct Along;

impl Search for Along {
    ghost next = { targets };

    ghost takes = { λ es. is_unvisited };

    ghost joined = { targets_joined };

    fn push_next(graph: &RawInstGraph, node: u16, visited: &[bool], stack: &mut Stack) {
        push_unvisited(graph, Direction::Outgoing, node, visited, stack);
    }
}

// The search along edges both ways.
#[derive(Clone, Copy)]
pub struct Both;

impl Search for Both {
    ghost next = { nexts };

    ghost takes = { λ es. is_unvisited };

    ghost joined = { nexts_joined };

    fn push_next(graph: &RawInstGraph, node: u16, visited: &[bool], stack: &mut Stack) {
        Along::push_next(graph, node, visited, stack);
        push_unvisited(graph, Direction::Incoming, node, visited, stack);
    }
}

// Pushes a node's neighbors that are not visited.
pub fn push_unvisited(
    graph: &RawInstGraph,
    direction: Direction,
    node: u16,
    visited: &[bool],
    stack: &mut Stack,
)
    requires table { IsTableOf (model graph.now) visited.now }
    requires room { length stack.old + length (neighbours direction (history (model graph.now).edges) node) ≤ 8193 }
    ensures pushed { stack.new ≡ piled (neighbours direction (history (model graph.now).edges) node) visited.now stack.old }
    ensures below { Below (length (model graph.now).nodes) stack.old → Below (length (model graph.now).nodes) stack.new }
{
    for other in graph.neighbors_directed(node as usize, direction) {
        if !visited[other as usize] {
            stack.push(other);
        }
    }
}

// Visits what can be reached from the nodes on the stack, and notes them in turn.
pub fn explore<S: Search>(
    graph: &RawInstGraph,
    stack: &mut Stack,
    visited: &mut [bool],
    order: &mut Stack,
)
    requires table { IsTableOf (model graph.now) visited.old }
    requires below { Below (length (model graph.now).nodes) stack.old }
    requires room { length stack.old + pending (S.next (model graph.now).edges) (length (model graph.now).nodes) visited.old ≤ 8193 }
    requires notes { length order.old + blanks (length (model graph.now).nodes) visited.old ≤ 8193 }
    ensures { Left (searched (S.takes (model graph.now).edges) (S.next (model graph.now).edges) (blanks (length (model graph.now).nodes) visited.old) stack.old visited.old order.old) visited.new order.new }
{
    while let Some(node) = stack.pop() {
        if !visited[node as usize] {
            visited[node as usize] = true;
            order.push(node);
            S::push_next(graph, node, visited, stack);
        }
    }
}
