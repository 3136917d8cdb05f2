// Why a graph did not do what it was asked.
ghost use Rattle.std.specs.Prelude.{◌≡◌, Some};
ghost use Rattle.records.specs.Refusals.{number, detail, refusal_line};

use crate::limits::{MAX_EDGES, MAX_NODES};
use std::error::Error;
use std::fmt;

// Each case that carries a number carries what comes with the refusal.
#[derive(Clone, Copy, PartialEq, Eq, Debug)]
pub enum Refusal {
    Sealed,
    StillOpen,
    UnknownNode(usize),
    NodesFull,
    EdgesFull,
    TableTooShort(usize),
    ClosedWalk(usize),
    NodeRowsTooFew(usize),
    EdgeRowsTooFew(usize),
    PathNumbersTooFew(usize),
    BufferTooShort(usize),
}

impl Refusal {
    // The numbers and what comes with them are the interface, so each refusal has its own line in either table.
    pub fn number(&self) -> u8
        ensures { result ≡ number self.now }
    {
        match self {
            Refusal::Sealed => 1,
            Refusal::StillOpen => 2,
            Refusal::UnknownNode(_) => 3,
            Refusal::NodesFull => 4,
            Refusal::EdgesFull => 5,
            Refusal::TableTooShort(_) => 6,
            Refusal::ClosedWalk(_) => 7,
            Refusal::NodeRowsTooFew(_) => 8,
            Refusal::EdgeRowsTooFew(_) => 9,
            Refusal::PathNumbersTooFew(_) => 10,
            Refusal::BufferTooShort(_) => 11,
        }
    }

    // What comes with the number.
    pub fn detail(&self) -> usize
        ensures { result ≡ detail self.now }
    {
        match self {
            Refusal::Sealed => 0,
            Refusal::StillOpen => 0,
            Refusal::UnknownNode(number) => *number,
            Refusal::NodesFull => MAX_NODES,
            Refusal::EdgesFull => MAX_EDGES,
            Refusal::TableTooShort(needed) => *needed,
            Refusal::ClosedWalk(node) => *node,
            Refusal::NodeRowsTooFew(needed) => *needed,
            Refusal::EdgeRowsTooFew(needed) => *needed,
            Refusal::PathNumbersTooFew(needed) => *needed,
            Refusal::BufferTooShort(needed) => *needed,
        }
    }
}

// The number, and what comes with it.
impl fmt::Display for Refusal {
    ghost output = { λ refusal. Some (refusal_line refusal) };

    fn fmt<W: fmt::Write>(&self, f: &mut fmt::Formatter<W>) -> fmt::Result {
        let number = self.number();
        let detail = self.detail();
        write!(f, "{number} {detail}")
    }
}

impl Error for Refusal {}
