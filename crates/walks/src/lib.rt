// Stack searches over the edges of a graph, and the search for closed walks.
#![tactic(auto)]

pub mod cycle;
pub mod explore;
