// Sheets: a graph written in bytes, and the reading of it.
#![tactic(auto)]

mod reader;
pub mod reading;
