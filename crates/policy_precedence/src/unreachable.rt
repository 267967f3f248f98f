// Finds the events that the policy never allows: those still disabled when no more events can be enabled.
ghost use Rattle.std.specs.Prelude.{◌≡◌, ◌<◌};
ghost use Rattle.types.specs.Names.{events};
ghost use Rattle.policy_spec.specs.maps.Maps.{map_where};
ghost use Rattle.policy_spec.specs.precedence.Precedence.{states_of, blocked, fixpoint_of, unreachable_events};

use crate::pairs::Pairs;
use policy_spec::precedence::MOST_NAMED;
use policy_spec::tables::EVENTS;

impl Pairs<'_> {
    // The state in which all named events that can be recorded are recorded. Four passes over all events are enough: at most four are named.
    pub fn fixpoint(&self) -> usize
        ensures { (result ≡ fixpoint_of self.now.pairs.now) × (result < states_of self.now.pairs.now) }
    {
        let mut s = 0;
        for i in 0..MOST_NAMED * EVENTS {
            s = self.arrow(s, i % EVENTS).unwrap_or(s);
        }
        s
    }

    // The set of events that have no arrow in state s.
    pub fn blocked_events(&self, s: usize) -> usize
        requires { s < states_of self.now.pairs.now }
        ensures { result ≡ map_where (blocked self.now.pairs.now s) events }
    {
        let mut map = 0;
        for e in 0..EVENTS {
            if self.arrow(s, e).is_none() {
                map += 1 << e;
            }
        }
        map
    }

    // The set of events that the policy never allows.
    pub fn unreachable(&self) -> usize
        ensures { result ≡ unreachable_events self.now.pairs.now }
    {
        self.blocked_events(self.fixpoint())
    }
}
