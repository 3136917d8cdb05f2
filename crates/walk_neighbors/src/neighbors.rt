// A node's neighbors past disabled nodes.
ghost use Rattle.std.specs.Prelude.{◌≡◌, ◌≤◌, length};
ghost use Rattle.tables.specs.Steps.{Below};
ghost use Rattle.graph.specs.Model.{model};
ghost use Rattle.walk_neighbors.specs.PastDisabled.{enabled_neighbours};
ghost use Rattle.walk_neighbors.specs.GivenOut.{GivesFrom};
ghost use Rattle.walk_neighbors.specs.Bound.{walked, still_to_come};

use crate::walk::{Neighbors, WalkNeighbors};
use graph::raw::RawInstGraph;
use records::edge::Direction;

// The neighbors of a node past disabled nodes, at most one for each of 4,096 edges and 1,024 nodes; a number that names no node has none.
pub fn neighbors_directed(graph: &RawInstGraph, node: usize, direction: Direction) -> Neighbors<'_>
    ensures coming { still_to_come result ≡ enabled_neighbours direction (model graph.now) node }
    ensures law { GivesFrom direction (model graph.now) node (still_to_come result) }
    ensures few { length (still_to_come result) ≤ 5120 }
    ensures inside { Below (length (model graph.now).nodes) (still_to_come result) }
    ensures graph { walked result ≡ model graph.now }
{
    Neighbors {
        graph,
        walk: WalkNeighbors::new(graph, node, direction),
    }
}
