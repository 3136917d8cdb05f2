// Going through what a node sees along its edges, newest edge first.
ghost use Rattle.std.specs.Prelude.{◌≡◌, length};
ghost use Rattle.std.specs.Iterator.{YieldsFirst, item_count};
ghost use Rattle.records.specs.Edges.{history, neighbours};
ghost use Rattle.tables.specs.Steps.{Steps, Inside, Below};
ghost use Rattle.graph.specs.Cursors.{coming_in, coming, graph_of};
ghost use Rattle.graph.specs.Model.{model};

use crate::raw::RawInstGraph;
use records::edge::Direction;

// A place in one of a node's two edge lists: the edge that comes next, if there is one. What it gives lies inside the graph
// (`Inside`, `Below`), which only the graph's own type knows, so the contracts say it.
// It holds no graph, so the graph may change between two steps.
#[derive(Clone, Copy)]
pub struct Walker {
    pub(crate) direction: Direction,
    pub(crate) edge: Option<u16>,
}

// A walker and the graph that it goes through.
#[derive(Clone, Copy)]
pub struct Neighbors<'a> {
    pub(crate) graph: &'a RawInstGraph,
    pub(crate) walker: Walker,
}

impl RawInstGraph {
    // The neighbors of a node, one for each edge; a number that names no node has none. It is asked as in petgraph.
    pub fn neighbors_directed(&self, node: usize, direction: Direction) -> Neighbors<'_>
        ensures list { coming result ≡ neighbours direction (history (model self.now).edges) node }
        ensures inside { Below (length (model self.now).nodes) (coming result) }
        ensures graph { graph_of result ≡ model self.now }
    {
        let edge = if node >= self.nodes.len() {
            None
        } else {
            self.edges.links(direction).first[node]
        };
        Neighbors {
            graph: self,
            walker: Walker { direction, edge },
        }
    }
}

impl Walker {
    // The next neighbor in a graph, none past the end of the list.
    pub fn next(&mut self, graph: &RawInstGraph) -> Option<u16>
        ensures steps { Steps (coming_in (model graph.now).edges self.old) result (coming_in (model graph.now).edges self.new) }
        ensures inside { Inside (length (model graph.now).nodes) result }
    {
        let edge = self.edge?;
        if edge as usize >= graph.edges().len() {
            return None;
        }
        self.edge = graph.edges.links(self.direction).next[edge as usize];
        Some(graph.edges()[edge as usize].far(self.direction))
    }
}

impl Neighbors<'_> {
    // The place in the list alone.
    pub fn detach(&self) -> Walker
        ensures { coming_in (graph_of self.now).edges result ≡ coming self.now }
    {
        self.walker
    }
}

impl Iterator for Neighbors<'_> {
    type Item = u16;

    ghost next_gives = { YieldsFirst coming };

    ghost remaining = { item_count coming };

    fn next(&mut self) -> Option<u16> {
        let Neighbors { graph, walker } = self;
        walker.next(graph)
    }
}
