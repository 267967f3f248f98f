// Finds the nodes that events lead to. The caller says where each event leads from a node.
#![tactic(auto)]

pub mod writing;

ghost use Rattle.std.specs.Prelude.{◌≡◌, ◌+◌, ◌*◌, ◌/◌, ◌^◌, ◌≤◌, ◌<◌, ◌==◌, ℕ, position, get_or};
ghost use Rattle.types.specs.Names.{events, most_states};
ghost use Rattle.policy_spec.specs.reachability.Claims.{Arrows};
ghost use Rattle.policy_spec.specs.reachability.Worklists.{initial_worklist, insert_target, node_number, PendingNode, Follows, Explored};

use policy_spec::reachability::{ARROWS, NODES};
use policy_spec::tables::{EVENTS, MOST_STATES, NO_ARROW};
use std::marker::Model;
use std::num::NonZeroU16;

// The work list: the nodes found so far, with room for one too many, their count, and for each arrow the number of the node that it leads to.
// It is arrays and a count, since the library has no heap. Contracts see a record of the specs. The longest array stands first: there
// the library for i686 clears it in place, and asks its host for no `memset`.
#[derive(Clone, Copy)]
pub struct Worklist {
    arrows: [u8; ARROWS],
    count: usize,
    nodes: [u16; NODES],
}

impl Model for Worklist {
    ghost use Rattle.std.specs.Prelude.{◌≤◌};
    ghost use Rattle.policy_spec.specs.reachability.Worklists.{Worklist as FoundNodes, capacity};

    ghost Value = { FoundNodes };

    ghost view = { λ w. record { nodes = w.nodes; count = w.count; arrows = w.arrows } };

    ghost invariant = { λ w. w.count ≤ capacity };

    ghost inverse = { λ f. record { nodes = f.nodes; count = f.count; arrows = f.arrows } };
}

// The index of node x, if it is there.
fn index_of_node(nodes: &[u16], x: u16) -> Option<usize>
    ensures { result ≡ position (λ y. y == x) nodes.now }
{
    nodes.iter().position(|y| *y == x)
}

impl Worklist {
    // The first work list has the start node only.
    pub fn new(start: u16) -> Worklist
        ensures { result ≡ initial_worklist start }
    {
        let mut nodes: [u16; NODES] = [0; NODES];
        nodes[0] = start;
        Worklist {
            arrows: [0; ARROWS],
            count: 1,
            nodes,
        }
    }

    // The node that arrow k starts from.
    pub fn node(&self, k: usize) -> u16
        requires { k < events * most_states }
        ensures { result ≡ get_or self.now.nodes (k / events) 0 }
    {
        self.nodes[k / EVENTS]
    }

    // The node that arrow k still has to be followed from: it was found, and there are not too many nodes.
    pub fn pending(&self, k: usize) -> Option<u16>
        ensures { PendingNode self.now k result }
    {
        if k < EVENTS * self.count && self.count <= MOST_STATES {
            Some(self.node(k))
        } else {
            None
        }
    }

    // Arrow k leads to node x, or to none. A new node is added at the end.
    pub fn insert(&mut self, k: usize, x: Option<NonZeroU16>)
        requires { (self.old.count ≤ most_states) × (k < events * most_states) }
        ensures { self.new ≡ insert_target self.old k (node_number x) }
    {
        let Some(x) = x else {
            self.arrows[k] = NO_ARROW as u8;
            return;
        };
        let n = self.count;
        let x = x.get();
        if let Some(at) = index_of_node(&self.nodes[..n], x) {
            self.arrows[k] = at as u8;
            return;
        }
        self.arrows[k] = n as u8;
        self.nodes[n] = x;
        self.count = n + 1;
    }
}

// Finds all nodes that events lead to from `start`. `step` gives the node after an event.
pub fn explore<F: Fn(u16, usize) -> Option<NonZeroU16>>(start: u16, step: F) -> Worklist
    requires { (x n : ℕ) → n < events → F.pre step x n }
    ensures { (next : ℕ → ℕ → ℕ) → Arrows next start → Follows (F.post step) next → Explored next start result }
{
    let mut found = Worklist::new(start);
    for k in 0..ARROWS {
        let Some(x) = found.pending(k) else {
            return found;
        };
        found.insert(k, step(x, k % EVENTS));
    }
    found
}
