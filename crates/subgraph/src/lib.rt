// The subgraphs of a graph without closed walks, each in an order in which sources stand before targets.
#![tactic(auto)]

mod order;
pub mod partition;
pub mod places;
mod sort;
