// What a sheet holds, as a text for support staff: a line for each fact, or one line that says why it was refused.
#![tactic(auto)]

pub mod report;
pub mod summary;
