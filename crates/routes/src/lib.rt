// Why a view keeps every route.
#![tactic(auto)]

pub mod laws;
pub mod worked;
