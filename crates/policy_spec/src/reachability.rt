// Requests 7 and 8: the result of a search that finds all nodes that events lead to from a start node.
// A node is a number above 0; 0 means no node. Definitions and claims are in specs/.
use crate::tables::{EVENTS, MOST_STATES};
use types::PolicyNumbers;

// Room for one node more than a policy may have, and for the arrows of the nodes that it may have.
pub const NODES: usize = MOST_STATES + 1;

pub const ARROWS: usize = EVENTS * MOST_STATES;

// A policy that was made: how many bytes of its table were written, and its numbers.
#[derive(Clone, Copy)]
pub struct NewPolicy {
    pub bytes: usize,
    pub policy: PolicyNumbers,
}
