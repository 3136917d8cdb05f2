// A node's neighbors past disabled nodes.
#![tactic(auto)]

pub mod hidden;
pub mod neighbors;
mod pending;
pub mod walk;
