// Request 11, 'This before that': makes a policy from pairs of events, in which the first must come before the second.
#![tactic(auto)]

pub mod arrows;
pub mod pairs;
pub mod unreachable;

ghost use Rattle.std.specs.Prelude.{◌≡◌, length};
ghost use Rattle.policy_spec.specs.precedence.Precedence.{table_of, table_bytes, make_of, make_table};
ghost use Rattle.policy_spec.specs.precedence.Results.{precedence_of};

use crate::pairs::Pairs;
use policy_spec::precedence::PrecedencePolicy;
use policy_spec::tables::{EVENTS, NO_ARROW};
use types::{PolicyNumbers, Refusal, Reject};

// Writes the table.
fn fill(pairs: &Pairs, table: &mut [u8])
    requires { length table.old ≡ table_bytes pairs.now.pairs.now }
    ensures { table.new ≡ table_of pairs.now.pairs.now }
{
    for (i, entry) in table.iter_mut().enumerate() {
        *entry = pairs.arrow(i / EVENTS, i % EVENTS).unwrap_or(NO_ARROW) as u8;
    }
}

// Makes the policy: writes its table to the start of `table`, and answers its numbers and the set of events that it never allows.
// `pairs` has the first and the second event of each pair in turn.
pub fn make(pairs: &[u8], table: &mut [u8]) -> Result<PrecedencePolicy, Reject>
    ensures made { precedence_of result ≡ make_of pairs.now (length table.old) }
    ensures table { table.new ≡ make_table pairs.now table.old }
{
    let pairs = Pairs::checked(pairs)?;
    let states = pairs.states();
    let bytes = EVENTS * states;
    if table.len() < bytes {
        return Err(Refusal::SmallOutput.into());
    }
    fill(&pairs, &mut table[..bytes]);
    Ok(PrecedencePolicy {
        bytes,
        policy: PolicyNumbers {
            states: states as u32,
            start: 0,
        },
        unreachable: pairs.unreachable() as u16,
    })
}
