// The graph: its nodes and edges and, once it is sealed, an order of the nodes.
ghost use Rattle.std.specs.Prelude.{◌≡◌, ◌≤◌, Some};
ghost use Rattle.arrayvec.specs.ArrayVec.{array_vec_len};
ghost use Rattle.records.specs.declared.node.NodeState.TheVariants.{Hidden, Disabled};
ghost use Rattle.graph.specs.declared.raw.Sealing.{Sealing};
ghost use Rattle.graph.specs.EdgeLists.{edges_in};
ghost use Rattle.graph.specs.Order.{Ends};
ghost use Rattle.graph.specs.Ordered.{OrdersAll};
ghost use Rattle.graph.specs.Tallies.{tally};

use crate::lists::EdgeLists;
use crate::stats::GraphStats;
use arrayvec::ArrayVec;
use records::limits::MAX_NODES;
use records::node::Node;

// What sealing adds: an order of all nodes, and whether from a node one that is not disabled can be reached. Each is lent as
// a slice, so neither is part of a node's record.
#[derive(Drop)]
pub struct Sealing {
    pub(crate) order: ArrayVec<u16, MAX_NODES>,
    pub(crate) reach: ArrayVec<bool, MAX_NODES>,
}

// It has no `impl Model`: clauses name its value by `model`, and the crates above reason from its ghost fields, by `sound`.
#[derive(Drop)]
pub struct RawInstGraph {
    pub(crate) nodes: ArrayVec<Node, MAX_NODES>,
    pub(crate) edges: EdgeLists,
    pub(crate) stats: GraphStats,
    pub(crate) sealing: Option<Sealing>,
    ghost few: { array_vec_len nodes ≤ 1024 },
    ghost hides: { stats.hidden ≡ tally Hidden nodes.items },
    ghost disables: { stats.disabled ≡ tally Disabled nodes.items },
    ghost ends: { Ends (array_vec_len nodes) (edges_in edges) },
    ghost ordered: { (s : Sealing) → sealing ≡ Some s → OrdersAll nodes.items (edges_in edges) s.order.items s.reach.items },
}
