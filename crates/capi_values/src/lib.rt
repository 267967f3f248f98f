// Converts a C host's numbers into records, and answers into numbers.
#![tactic(auto)]

pub mod answers;
pub mod layouts;
pub mod machines;
pub mod records;
