// Going through a node's neighbors, with each disabled one replaced by what lies past it.
ghost use Rattle.std.specs.Prelude.{◌≡◌, ◌≤◌, true, length, filter};
ghost use Rattle.tables.specs.Steps.{Steps, Inside, Below};
ghost use Rattle.graph.specs.Model.{model};
ghost use Rattle.graph.specs.Cursors.{coming_in};
ghost use Rattle.walk_neighbors.specs.PastDisabled.{is_off, may_reach, enabled_neighbours};
ghost use Rattle.walk_neighbors.specs.GivenOut.{GivesFrom};
ghost use Rattle.walk_neighbors.specs.Cursors.{Fit, fit_prop, to_come, after, left, Met};

use crate::pending::Pending;
use graph::neighbors::Walker;
use graph::raw::RawInstGraph;
use records::edge::Direction;

// Goes through a node's direct list, and then through the lists of the disabled nodes that it met.
// It holds no graph, so nodes may be shown and hidden between two steps.
#[derive(Drop)]
pub struct WalkNeighbors {
    pub(crate) direction: Direction,
    pub(crate) direct: Walker,
    pub(crate) pending: Pending,
}

// A walk and the graph that it goes through.
#[derive(Drop)]
pub struct Neighbors<'a> {
    pub(crate) graph: &'a RawInstGraph,
    pub(crate) walk: WalkNeighbors,
    ghost fit: { Fit (model graph.now) walk } by { fit_prop (model graph.now) walk },
}

// Whether from a node one that is not disabled may be reached: yes where the graph does not tell.
fn may_reach(graph: &RawInstGraph, node: u16) -> bool
    ensures { result ≡ may_reach (model graph.now) node }
{
    graph.reach().get(node as usize).copied().unwrap_or(true)
}

// The next direct neighbor from which a node that is not disabled may be reached.
fn next_direct(graph: &RawInstGraph, direct: &mut Walker) -> Option<u16>
    ensures steps { Steps (filter (may_reach (model graph.now)) (coming_in (model graph.now).edges direct.old)) result (filter (may_reach (model graph.now)) (coming_in (model graph.now).edges direct.new)) }
    ensures inside { Inside (length (model graph.now).nodes) result }
{
    while let Some(other) = direct.next(graph) {
        if may_reach(graph, other) {
            return Some(other);
        }
    }
    None
}

impl WalkNeighbors {
    // The neighbors of a node past disabled nodes, at most one for each of 4,096 edges and 1,024 nodes; a number that names no node has none.
    pub fn new(graph: &RawInstGraph, node: usize, direction: Direction) -> Self
        ensures coming { to_come (model graph.now) result ≡ enabled_neighbours direction (model graph.now) node }
        ensures law { GivesFrom direction (model graph.now) node (to_come (model graph.now) result) }
        ensures few { length (to_come (model graph.now) result) ≤ 5120 }
        ensures inside { Below (length (model graph.now).nodes) (to_come (model graph.now) result) }
        ensures fit { Fit (model graph.now) result }
    {
        WalkNeighbors {
            direction,
            direct: graph.neighbors_directed(node, direction).detach(),
            pending: Pending::new(),
        }
    }

    // The next node, from the direct list or else from those noted.
    fn next_met(&mut self, graph: &RawInstGraph) -> Option<u16>
        requires { Fit (model graph.now) self.old }
        ensures met { Met (model graph.now) self.old result self.new }
        ensures inside { Inside (length (model graph.now).nodes) result }
        ensures fit { Fit (model graph.now) self.new }
    {
        // The library's `or_else` does not say that what its closure borrows stays as it is where it is not called.
        match next_direct(graph, &mut self.direct) {
            Some(node) => Some(node),
            None => self.pending.pop(),
        }
    }

    // Goes past a disabled node: notes its neighbors.
    fn push_list(&mut self, graph: &RawInstGraph, node: u16)
        requires off { is_off (model graph.now) node ≡ true }
        requires fit { Fit (model graph.now) self.old }
        ensures onward { to_come (model graph.now) self.new ≡ after (model graph.now) node self.old }
        ensures left { left (model graph.now) self.new ≡ left (model graph.now) self.old }
        ensures fit { Fit (model graph.now) self.new }
    {
        for other in graph.neighbors_directed(node as usize, self.direction) {
            self.pending.push(other);
        }
    }

    // The next node that is not disabled, none past the end.
    pub fn next(&mut self, graph: &RawInstGraph) -> Option<u16>
        requires { Fit (model graph.now) self.old }
        ensures steps { Steps (to_come (model graph.now) self.old) result (to_come (model graph.now) self.new) }
        ensures inside { Inside (length (model graph.now).nodes) result }
        ensures fit { Fit (model graph.now) self.new }
    {
        while let Some(node) = self.next_met(graph) {
            if !graph.nodes()[node as usize].disabled() {
                return Some(node);
            }
            self.push_list(graph, node);
        }
        None
    }
}

impl Neighbors<'_> {
    ghost use Rattle.walk_neighbors.specs.Bound.{walked, still_to_come};

    // The walk alone, which may go on in the same graph or in a changed one.
    pub fn detach(self) -> WalkNeighbors
        ensures coming { to_come (walked self.entry) result ≡ still_to_come self.entry }
        ensures fit { Fit (walked self.entry) result }
    {
        self.walk
    }
}

impl Iterator for Neighbors<'_> {
    ghost use Rattle.std.specs.Iterator.{YieldsFirst, item_count};
    ghost use Rattle.walk_neighbors.specs.Bound.{still_to_come};

    type Item = u16;

    ghost next_gives = { YieldsFirst still_to_come };

    ghost remaining = { item_count still_to_come };

    // The next node that is not disabled, none past the end.
    fn next(&mut self) -> Option<u16> {
        let Neighbors { graph, walk } = self;
        walk.next(graph)
    }
}
