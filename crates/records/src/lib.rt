// The plain records of a trace graph: nodes, edges, strands, stages, and the refusals with their numbers.
#![tactic(auto)]

pub mod edge;
pub mod limits;
pub mod node;
pub mod refusal;
pub mod sheet_refusal;
pub mod stage;
pub mod strand;
