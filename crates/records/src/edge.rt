// What an edge is, and the two ways of looking along it.
ghost use Rattle.std.specs.Prelude.{◌≡◌};
ghost use Rattle.records.specs.Edges.{near, far};

#[derive(Clone, Copy, PartialEq, Eq, Debug, Default)]
pub struct Edge {
    pub source: u16,
    pub target: u16,
}

#[derive(Clone, Copy, PartialEq, Eq, Debug)]
pub enum Direction {
    Outgoing,
    Incoming,
}

impl Edge {
    // The end at which one stands. A method for either end is plainer than one that is told which end.
    pub fn near(&self, direction: Direction) -> u16
        ensures { result ≡ near direction self.now }
    {
        match direction {
            Direction::Outgoing => self.source,
            Direction::Incoming => self.target,
        }
    }

    // The end that one sees from there.
    pub fn far(&self, direction: Direction) -> u16
        ensures { result ≡ far direction self.now }
    {
        match direction {
            Direction::Outgoing => self.target,
            Direction::Incoming => self.source,
        }
    }
}
