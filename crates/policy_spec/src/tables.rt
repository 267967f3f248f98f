// The numbers of a policy's table as indices. There is no code.
// A host's numbers have 32 bits and an index has the machine's, and a constant can convert by `as` alone: one place does it for the crates that make policies.
use types::{Layout, PolicyNumbers};

// The most states of a policy.
pub const MOST_STATES: usize = Layout::MOST_STATES as usize;

// Entries in one row of a table.
pub const EVENTS: usize = PolicyNumbers::EVENTS as usize;

// In a table, this entry means that the event is not allowed.
pub const NO_ARROW: usize = PolicyNumbers::NO_ARROW as usize;
