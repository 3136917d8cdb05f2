// The analyses of which a view is made: what can be reached, and the strands of a source.
#![tactic(auto)]

pub mod reach;
pub mod strands;
