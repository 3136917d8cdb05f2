// Tables of a fixed room of which the first entries are in use: filling them, and a stack of node numbers.
#![tactic(auto)]

pub mod fill;
pub mod stack;
