// The subgraphs of a graph: all orders in one table, and each node's place.
ghost use Rattle.std.specs.Prelude.{◌≡◌, ◌≤◌, length};
ghost use Rattle.graph.specs.Model.{model};
ghost use Rattle.subgraph.specs.Wholes.{alone};

use crate::order::no_neighbors;
use arrayvec::ArrayVec;
use graph::raw::RawInstGraph;
use records::edge::Direction;
use records::limits::MAX_NODES;
use records::node::Place;
use tables::stack::Stack;

// In the order the subgraphs' orders stand one after another, and then the nodes without edges; the nodes of the
// subgraphs are the first `in_subgraphs`.
#[derive(Drop)]
pub struct Subgraphs {
    pub count: usize,
    // A fixed table by the nodes' numbers, since there is no heap.
    pub places: [Option<Place>; MAX_NODES],
    in_subgraphs: usize,
    order: ArrayVec<u16, MAX_NODES>,
    ghost order_fits: { length order.items ≤ 1024 },
    ghost count_fits: { count ≤ 1024 },
    ghost parts_first: { in_subgraphs ≤ length order.items },
}

impl Subgraphs {
    ghost use Rattle.std.specs.Prelude.{◌+◌, ◌<◌, [], ◌++◌, replicate, reverse, take, drop};
    ghost use Rattle.tables.specs.Steps.{Below};
    ghost use Rattle.subgraph.specs.Places.{placed};
    ghost use Rattle.subgraph.specs.Subgraphs.{in_order, in_parts};
    ghost use Rattle.subgraph.specs.Wholes.{singletons};

    // No subgraphs.
    pub(crate) fn new() -> Self
        ensures order { in_order result ≡ [] }
        ensures count { result.count ≡ 0 }
        ensures places { result.places ≡ replicate 1024 None }
    {
        Subgraphs {
            count: 0,
            places: [None; MAX_NODES],
            in_subgraphs: 0,
            order: ArrayVec::new(),
        }
    }

    // Adds the next subgraph, whose order has its last node on top.
    pub(crate) fn add(&mut self, order: &Stack)
        requires nodes { Below 1024 order.now }
        requires room { length order.now + length (in_order self.old) ≤ 1024 }
        requires count { self.old.count < 1024 }
        ensures order { in_order self.new ≡ in_order self.old ++ reverse order.now }
        ensures places { self.new.places ≡ placed self.old.count order.now self.old.places }
        ensures count { self.new.count ≡ self.old.count + 1 }
    {
        for (position, node) in order.as_slice().iter().enumerate() {
            self.places[*node as usize] = Some(Place {
                subgraph: self.count as u16,
                position: position as u16,
            });
            self.order.push(*node);
        }
        self.count += 1;
    }

    // Puts the nodes without edges after those of the subgraphs.
    pub(crate) fn add_singletons(&mut self, graph: &RawInstGraph)
        requires { length (in_order self.old) + length (singletons (model graph.now).edges (length (model graph.now).nodes)) ≤ 1024 }
        ensures order { in_order self.new ≡ in_order self.old ++ singletons (model graph.now).edges (length (model graph.now).nodes) }
        ensures parts { in_parts self.new ≡ length (in_order self.old) }
        ensures count { self.new.count ≡ self.old.count }
        ensures places { self.new.places ≡ self.old.places }
    {
        self.in_subgraphs = self.order.len();
        for node in 0..graph.nodes().len() as u16 {
            if is_singleton(graph, node) {
                self.order.push(node);
            }
        }
    }

    // The nodes of the subgraphs, one subgraph after another.
    pub fn in_subgraphs(&self) -> &[u16]
        ensures { result.now ≡ take (in_parts self.now) (in_order self.now) }
    {
        &self.topo_node_indices()[..self.in_subgraphs]
    }

    // The nodes without edges, ascending.
    pub fn singletons(&self) -> &[u16]
        ensures { result.now ≡ drop (in_parts self.now) (in_order self.now) }
    {
        &self.topo_node_indices()[self.in_subgraphs..]
    }

    // All nodes, each edge's source before its target.
    pub fn topo_node_indices(&self) -> &[u16]
        ensures { result.now ≡ in_order self.now }
    {
        self.order.as_slice()
    }
}

// Whether no edge leads from a node or to it.
fn is_singleton(graph: &RawInstGraph, node: u16) -> bool
    ensures { result ≡ alone (model graph.now).edges node }
{
    no_neighbors(graph, node, Direction::Outgoing) && no_neighbors(graph, node, Direction::Incoming)
}
