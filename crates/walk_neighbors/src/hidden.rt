// Hidden nodes among a node's neighbors past disabled nodes.
ghost use Rattle.std.specs.Prelude.{◌≡◌, count_by};
ghost use Rattle.records.specs.Nodes.{is_hidden};
ghost use Rattle.graph.specs.Model.{model};
ghost use Rattle.graph.specs.Adding.{node_at};
ghost use Rattle.walk_neighbors.specs.PastDisabled.{enabled_neighbours};

use crate::neighbors::neighbors_directed;
use graph::raw::RawInstGraph;
use records::edge::Direction;

// How many hidden nodes the walk gives out, repeats counted.
pub fn count_hidden(graph: &RawInstGraph, node: usize, direction: Direction) -> usize
    ensures { result ≡ count_by (λ k. is_hidden (node_at (model graph.now) k)) (enabled_neighbours direction (model graph.now) node) }
{
    let nodes = graph.nodes();
    neighbors_directed(graph, node, direction)
        .filter(|other| nodes[*other as usize].hidden())
        .count()
}
