// Request 8, 'Policies drawn with several arrows': makes a deterministic policy by the subset construction.
#![tactic(auto)]

ghost use Rattle.std.specs.Prelude.{◌≡◌, ◌^◌, ◌≤◌, ◌<◌, length, ltb};
ghost use Rattle.types.specs.Names.{events, most_states};
ghost use Rattle.policy_spec.specs.reachability.Worklists.{Explored};
ghost use Rattle.policy_spec.specs.reachability.Results.{made_of};
ghost use Rattle.policy_determinise.specs.Drawings.{ValidDrawing, drawing_of, set_after, maps_right, drawing_right, determinise_of, determinise_table};

use policy_bits::has_bit;
use policy_reachability::Worklist;
use policy_spec::reachability::NewPolicy;
use policy_spec::tables::{EVENTS, MOST_STATES};
use std::num::NonZeroU16;
use types::{Refusal, Reject};

// Whether a set has only states below the state count.
fn fits_states(m: u16, states: usize) -> bool
    requires { states ≤ most_states }
    ensures { result ≡ ltb m (2 ^ states) }
{
    u32::from(m) < 1 << states
}

// Whether all sets of a list have only states below the state count. It never ends early: such a loop tests several sets at once.
fn maps_right(states: usize, arrows: &[u16]) -> bool
    requires { states ≤ most_states }
    ensures { result ≡ maps_right states arrows.now }
{
    arrows
        .iter()
        .fold(true, |right, m| right & fits_states(*m, states))
}

// Whether a drawing is right. If not, it is refused as bad drawing (16).
fn drawing_right(states: usize, starts: u16, arrows: &[u16]) -> bool
    ensures { result ≡ drawing_right (drawing_of states starts arrows.now) }
{
    if !(1..=MOST_STATES).contains(&states) {
        return false;
    }
    (starts != 0)
        & (arrows.len() == EVENTS * states)
        & fits_states(starts, states)
        & maps_right(states, arrows)
}

// A drawing that is right: its state count, the set of its starts, and for each state and event the set of states that the event leads to.
#[derive(Clone, Copy)]
struct RightDrawing<'a> {
    states: usize,
    starts: u16,
    arrows: &'a [u16],
    ghost valid: { ValidDrawing (drawing_of states starts arrows.now) },
}

impl RightDrawing<'_> {
    // The set of states that event n leads to from the set x.
    fn set_after(&self, x: u16, n: usize) -> u16
        requires { n < events }
        ensures { result ≡ set_after (drawing_of self.now.states self.now.starts self.now.arrows.now) x n }
    {
        let mut set = 0;
        for k in 0..self.states {
            if has_bit(usize::from(x), k) {
                set |= self.arrows[EVENTS * k + n];
            }
        }
        set
    }

    // Finds all sets that events lead to from the set of starts. The empty set is no node.
    fn explore(&self) -> Worklist
        ensures { Explored (set_after (drawing_of self.now.states self.now.starts self.now.arrows.now)) self.now.starts result }
    {
        policy_reachability::explore(self.starts, |x, n| NonZeroU16::new(self.set_after(x, n)))
    }
}

// Makes the policy of a drawing: writes its table to the start of `table`, and answers its numbers. Bit s of `starts` marks state s as a start.
// Bit t of entry 16 × s + n says that event n leads from state s to state t.
pub fn determinise(
    states: u32,
    starts: u16,
    arrows: &[u16],
    table: &mut [u8],
) -> Result<NewPolicy, Reject>
    ensures made { made_of result ≡ determinise_of (drawing_of states starts arrows.now) (length table.old) }
    ensures table { table.new ≡ determinise_table (drawing_of states starts arrows.now) table.old }
{
    let states = states as usize;
    if !drawing_right(states, starts, arrows) {
        return Err(Refusal::BadDrawing.into());
    }
    let drawing = RightDrawing {
        states,
        starts,
        arrows,
    };
    drawing.explore().write_policy(table)
}
