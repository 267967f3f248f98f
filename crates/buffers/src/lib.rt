// Reads and writes slices that the caller lends.
#![tactic(auto)]

pub mod cells;
pub mod pairs;
pub mod stores;
