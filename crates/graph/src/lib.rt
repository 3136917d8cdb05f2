// A trace graph in fixed tables: adding, disabling, showing and hiding, and the edge lists of each node.
#![tactic(auto)]

pub mod adding;
pub mod hide;
pub mod lists;
pub mod neighbors;
pub mod raw;
pub mod sealing;
pub mod stats;
