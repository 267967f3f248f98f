// Writes the policy of the nodes that were found, or refuses it.
ghost use Rattle.std.specs.Prelude.{◌≡◌, ◌++◌, ◌≤◌, length, drop};
ghost use Rattle.policy_spec.specs.reachability.Worklists.{written_of, written_table};
ghost use Rattle.policy_spec.specs.reachability.Results.{made_of};

use crate::Worklist;
use policy_spec::reachability::NewPolicy;
use policy_spec::tables::{EVENTS, MOST_STATES};
use types::{PolicyNumbers, Refusal, Reject};

// Copies the arrows over the start of the table.
#[tactic(auto, using(crate::proofs::writing::Laws::copy_none, crate::proofs::writing::Laws::copy_more, crate::proofs::writing::Laws::copy_done))]
fn copy(arrows: &[u8], table: &mut [u8])
    requires { length arrows.now ≤ length table.old }
    ensures { table.new ≡ arrows.now ++ drop (length arrows.now) table.old }
{
    for (i, arrow) in arrows.iter().enumerate() {
        table[i] = *arrow;
    }
}

impl Worklist {
    // Writes the policy's table to the start of `table`, and answers its numbers.
    pub fn write_policy(&self, table: &mut [u8]) -> Result<NewPolicy, Reject>
        ensures made { made_of result ≡ written_of self.now (length table.old) }
        ensures table { table.new ≡ written_table self.now table.old }
    {
        let n = self.count;
        if MOST_STATES < n {
            return Err(Refusal::TooManyStates.into());
        }
        let bytes = EVENTS * n;
        if table.len() < bytes {
            return Err(Refusal::SmallOutput.into());
        }
        copy(&self.arrows[..bytes], table);
        Ok(NewPolicy {
            bytes,
            policy: PolicyNumbers {
                states: n as u32,
                start: 0,
            },
        })
    }
}
