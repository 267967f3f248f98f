// Computes the arrow of an event in a state. There is one once all events that must come first are recorded.
ghost use Rattle.std.specs.Prelude.{◌≡◌, ◌-◌, ◌^◌, ◌≤◌, ◌<◌, IfSome};
ghost use Rattle.std.specs.Int.Bits.{bit_and};
ghost use Rattle.std.specs.Int.Count.{ones};
ghost use Rattle.types.specs.Names.{events};
ghost use Rattle.policy_spec.specs.tables.Arrows.{arrow_from};
ghost use Rattle.policy_spec.specs.precedence.Precedence.{pairs_in, states_of, firsts_in, arrow_of};

use crate::pairs::{PAIR, Pairs};
use policy_bits::has_bit;

impl Pairs<'_> {
    // The bit of event e in a state's number: how many named events are smaller.
    fn bit_index(&self, e: usize) -> usize
        requires { e < events }
        ensures { (result ≡ ones (bit_and self.now.names (2 ^ e - 1))) × (result ≤ e) }
    {
        (self.names & ((1 << e) - 1)).count_ones() as usize
    }

    // Whether all events that must come before e are recorded in state s.
    fn firsts_recorded(&self, s: usize, e: usize) -> bool
        ensures { result ≡ firsts_in self.now.pairs.now s e (pairs_in self.now.pairs.now) }
    {
        // By index, as `firsts_in` of the specs counts the pairs. A loop over `as_chunks` would take the halves of each array by a pattern, and be no shorter.
        let mut ok = true;
        for i in 0..self.pairs.len() / PAIR {
            let first = usize::from(self.pairs[PAIR * i]);
            let second = usize::from(self.pairs[PAIR * i + 1]);
            ok &= (second != e) | has_bit(s, self.bit_index(first));
        }
        ok
    }

    // The state after event e in state s, if the event has an arrow.
    pub fn arrow(&self, s: usize, e: usize) -> Option<usize>
        requires { (s < states_of self.now.pairs.now) × (e < events) }
        ensures arrow { result ≡ arrow_from (arrow_of self.now.pairs.now s e) }
        ensures byte { IfSome result (λ t. t < 256) }
    {
        if !has_bit(self.names, e) {
            return Some(s);
        }
        if self.firsts_recorded(s, e) {
            Some(s | (1 << self.bit_index(e)))
        } else {
            None
        }
    }
}
