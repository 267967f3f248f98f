// `hemdroas_determinise`: makes a policy from a drawing with several arrows for one event and several starts.
ghost use Rattle.std.specs.Prelude.{◌≡◌, length};
ghost use Rattle.policy_determinise.specs.Drawings.{drawing_of, determinise_of, determinise_table};
ghost use Rattle.capi.specs.determinise.Numbers.{starts_from, policy_to};

use capi_values::answers::{MADE, made_of};
use types::{Answer, Reject};

// Start sets that are out of range become empty; both are refused as bad drawing (16).
#[tactic(auto, using(crate::proofs::determinise::Laws::starts_held, crate::proofs::determinise::Laws::starts_none))]
fn starts_of(map: u32) -> u16
    ensures { result ≡ starts_from map }
{
    u16::try_from(map).unwrap_or(0)
}

#[unsafe(no_mangle)]
pub extern "C" fn hemdroas_determinise(
    states: u32,
    starts: u32,
    arrows: &[u16],
    table: &mut [u8],
    made: &mut [u32; MADE],
)
    ensures made { made.new ≡ policy_to (determinise_of (drawing_of states starts arrows.now) (length table.old)) }
    ensures table { table.new ≡ determinise_table (drawing_of states starts arrows.now) table.old }
{
    *made = match policy_determinise::determinise(states, starts_of(starts), arrows, table) {
        Ok(m) => made_of(Answer::from(Ok(m.bytes)), m.policy.states, m.policy.start),
        Err(reject) => made_of(Answer::from(Err::<usize, Reject>(reject)), 0, 0),
    };
}
