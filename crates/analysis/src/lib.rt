// Analyses: a value for each node, worked out from the values of its neighbours.
#![tactic(auto)]

pub mod analysis;
pub mod run;
mod values;
