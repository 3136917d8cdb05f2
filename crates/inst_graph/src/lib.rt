// The graph as its users have it: every public call on one page.
#![tactic(auto)]

pub mod calls;
pub mod inst_graph;
mod noting;
mod seal;
