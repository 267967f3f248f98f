// Tests a layout, masks addresses into its sandbox, and counts the bundles of a routine.
#![tactic(auto)]

pub mod count;
pub mod memory;
