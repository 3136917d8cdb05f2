// The edges in the order of adding, and through them each node's lists, newest edge first.
ghost use Rattle.std.specs.Prelude.{◌≤◌};
ghost use Rattle.arrayvec.specs.ArrayVec.{array_vec_len};
ghost use Rattle.records.specs.declared.edge.Direction.TheVariants.{Outgoing, Incoming};
ghost use Rattle.graph.specs.Links.{Chained};

use arrayvec::ArrayVec;
use records::edge::Edge;
use records::limits::{MAX_EDGES, MAX_NODES};

// For one direction: each node's newest edge, and from each edge the next older one at the same node.
// Links by number in two fixed tables, as petgraph has them: there is no heap, and an edge stands in two lists.
#[derive(Clone, Copy)]
pub struct Links {
    pub(crate) first: [Option<u16>; MAX_NODES],
    pub(crate) next: [Option<u16>; MAX_EDGES],
}

#[derive(Drop)]
pub struct EdgeLists {
    pub(crate) rows: ArrayVec<Edge, MAX_EDGES>,
    pub(crate) outgoing: Links,
    pub(crate) incoming: Links,
    ghost sparse: { array_vec_len rows ≤ 4096 },
    ghost chained_out: { Chained Outgoing rows.items outgoing },
    ghost chained_in: { Chained Incoming rows.items incoming },
}

pub mod linking;
