// Adding an edge in front of the lists of its two ends.
ghost use Rattle.std.specs.Prelude.{◌≡◌, ◌==◌, ◌<◌, [], ◌∷◌, ◌++◌, length, replicate, Some, None, slice_index_or, slice_set};
ghost use Rattle.graph.specs.EdgeLists.{edges_in};
ghost use Rattle.graph.specs.Links.{Chained};

use super::*;
use records::edge::Direction;

impl Links {
    fn new() -> Self
        ensures first { result.first ≡ replicate 1024 None }
        ensures next { result.next ≡ replicate 4096 None }
    {
        Links {
            first: [None; MAX_NODES],
            next: [None; MAX_EDGES],
        }
    }

    // Puts an edge in front of a node's list.
    fn link(&mut self, node: u16, edge: u16)
        requires node { node < 1024 }
        requires edge { edge < 4096 }
        ensures first { self.new.first ≡ slice_set self.old.first node (Some edge) }
        ensures next { self.new.next ≡ slice_set self.old.next edge (slice_index_or self.old.first node None) }
    {
        self.next[edge as usize] = self.first[node as usize];
        self.first[node as usize] = Some(edge);
    }
}

impl EdgeLists {
    pub(crate) fn new() -> Self
        ensures { edges_in result ≡ [] }
    {
        EdgeLists {
            rows: ArrayVec::new(),
            outgoing: Links::new(),
            incoming: Links::new(),
        }
    }

    // Adds an edge, where there is room for it.
    pub(crate) fn push(&mut self, edge: Edge)
        requires source { edge.source < 1024 }
        requires target { edge.target < 1024 }
        requires room { length (edges_in self.old) < 4096 }
        ensures { edges_in self.new ≡ edges_in self.old ++ edge ∷ [] }
    {
        let number = self.rows.len() as u16;
        self.rows.push(edge);
        self.outgoing.link(edge.source, number);
        self.incoming.link(edge.target, number);
    }

    pub(crate) fn is_full(&self) -> bool
        ensures { result ≡ (length (edges_in self.now) == 4096) }
    {
        self.rows.is_full()
    }

    // The edges in the order of adding.
    pub(crate) fn as_slice(&self) -> &[Edge]
        ensures { result.now ≡ edges_in self.now }
    {
        self.rows.as_slice()
    }

    // The links of one direction.
    pub(crate) fn links(&self, direction: Direction) -> &Links
        ensures { Chained direction (edges_in self.now) result.now }
    {
        match direction {
            Direction::Outgoing => &self.outgoing,
            Direction::Incoming => &self.incoming,
        }
    }
}
