// Pairs of events that are right, with the set of the events that they name.
ghost use Rattle.std.specs.Prelude.{◌≡◌, ◌^◌, true, false, IfOk, IfErr};
ghost use Rattle.types.specs.declared.Refusal.TheVariants.{BadPair};
ghost use Rattle.types.specs.Names.{events};
ghost use Rattle.policy_spec.specs.maps.Maps.{map_where};
ghost use Rattle.policy_spec.specs.precedence.Precedence.{ValidPairs, is_named, events_known, pairs_right, states_of};

use policy_spec::precedence::MOST_NAMED;
use policy_spec::tables::EVENTS;
use types::Refusal;

pub const PAIR: usize = 2;

// Whether no event of the pairs is above 15.
fn events_known(pairs: &[u8]) -> bool
    ensures { result ≡ events_known pairs.now }
{
    pairs.iter().all(|e| usize::from(*e) < EVENTS)
}

// The set of events that the pairs name.
fn named_events(pairs: &[u8]) -> usize
    requires { events_known pairs.now ≡ true }
    ensures { result ≡ map_where (is_named pairs.now) events }
{
    let mut names = 0;
    for e in pairs {
        names |= 1 << *e;
    }
    names
}

// `pairs` has the first and the second event of each pair in turn. Bit e of `names` says that they name event e.
#[derive(Clone, Copy)]
pub struct Pairs<'a> {
    pub names: usize,
    pub pairs: &'a [u8],
    pub ghost valid: { ValidPairs pairs.now names },
}

impl Pairs<'_> {
    // The pairs, if they are right; else bad pair (17).
    pub fn checked(pairs: &[u8]) -> Result<Pairs, Refusal>
        ensures right { IfOk result (λ p. (pairs_right pairs.now ≡ true) × (p.pairs.now ≡ pairs.now)) }
        ensures wrong { IfErr result (λ e. (pairs_right pairs.now ≡ false) × (e ≡ BadPair)) }
    {
        if !events_known(pairs) || pairs.len() % PAIR != 0 {
            return Err(Refusal::BadPair);
        }
        let names = named_events(pairs);
        let few = names.count_ones() as usize <= MOST_NAMED;
        if few {
            Ok(Pairs { names, pairs })
        } else {
            Err(Refusal::BadPair)
        }
    }

    // The number of states: one for each set of named events.
    pub fn states(&self) -> usize
        ensures { result ≡ states_of self.now.pairs.now }
    {
        1 << self.names.count_ones()
    }
}
