// Nodes that are still to be met, and were noted at most once each.
ghost use Rattle.std.specs.Prelude.{◌≡◌, ◌<◌, false, [], length, replicate};
ghost use Rattle.tables.specs.Steps.{Steps};
ghost use Rattle.walk_neighbors.specs.PastDisabled.{noted, push};

use records::limits::MAX_NODES;
use std::marker::Model;
use tables::stack::Stack;

// The nodes from disabled nodes' lists that are still to be met, and which nodes were ever among them.
#[derive(Drop)]
pub struct Pending {
    stack: Stack,
    // A fixed table by the nodes' numbers, since there is no heap.
    visited: [bool; MAX_NODES],
}

impl Model for Pending {
    ghost use Rattle.walk_neighbors.specs.PastDisabled.{Noted, noted};

    ghost Value = { Noted };

    ghost view = { λ p. noted p.visited p.stack };
}

impl Pending {
    pub fn new() -> Self
        ensures { result ≡ noted (replicate 1024 false) [] }
    {
        Pending {
            stack: Stack::new(),
            visited: [false; MAX_NODES],
        }
    }

    // Notes a node and marks it, unless it is marked.
    pub fn push(&mut self, node: u16)
        requires inside { node < length self.old.visited }
        requires room { length self.old.stack < 8193 }
        ensures { self.new ≡ push node self.old }
    {
        if !self.visited[node as usize] {
            self.visited[node as usize] = true;
            self.stack.push(node);
        }
    }

    // The node that was noted last.
    pub fn pop(&mut self) -> Option<u16>
        ensures steps { Steps self.old.stack result self.new.stack }
        ensures visited { self.new.visited ≡ self.old.visited }
    {
        self.stack.pop()
    }
}
