// Definitions and claims for the crates that make policies. It has no code but types.
#![tactic(auto)]

pub mod maps;
pub mod precedence;
pub mod reachability;
pub mod tables;
