// Defines what loading a routine answers and leaves, and claims that a loaded routine is isolated. It has no code but a type.
#![tactic(auto)]

use types::Machine;

// A routine that was loaded: the machine's record, and how many commands it has.
#[derive(Clone, Copy)]
pub struct LoadedRoutine {
    pub machine: Machine,
    pub commands: usize,
}
