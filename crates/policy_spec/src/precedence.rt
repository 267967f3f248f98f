// Request 11, 'This before that': types for a policy made from pairs of events. Definitions and claims are in specs/.
use types::PolicyNumbers;

// The most different events that a list of pairs may name.
pub const MOST_NAMED: usize = 4;

// A policy that was made: how many bytes of its table were written, its numbers, and the set of events that it never allows.
#[derive(Clone, Copy)]
pub struct PrecedencePolicy {
    pub bytes: usize,
    pub policy: PolicyNumbers,
    pub unreachable: u16,
}
