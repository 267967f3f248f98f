// Tests a policy by itself: its numbers, then its table, four bytes at a time.
ghost use Rattle.std.specs.Prelude.{◌≡◌, [], ◌*◌, ◌≤◌, length};
ghost use Rattle.types.specs.Names.{most_states, events};
ghost use Rattle.spec.specs.Policies.{lent_policy, entries_right};
ghost use Rattle.installer.specs.table.Tables.{table_right};

use crate::table_words::{states_right, word_right};
use types::PolicyNumbers;

// The bytes of a word.
const WORD: usize = 4;

// Whether every byte of a table is a state or no arrow. The loop has no early exit, so the compiler can test many words at once.
fn entries_right(states: u32, table: &[u8]) -> bool
    requires { (1 ≤ states) × (states ≤ most_states) × (length table.now ≡ events * states) }
    ensures { result ≡ entries_right states table.now }
{
    let mut ok = true;
    for bytes in table.as_chunks::<WORD>().0 {
        ok &= word_right(states, u32::from_le_bytes(*bytes));
    }
    ok
}

// Whether the policy's numbers and table are right. The entries come last: by then the table is known to have 16 bytes a state, so it is made of whole words.
#[tactic(auto, using(crate::proofs::table::Tables::entries_ready, crate::proofs::table::Tables::entries_decide, crate::proofs::table::Tables::numbers_wrong))]
pub fn table_right(policy: PolicyNumbers, table: &[u8]) -> bool
    ensures { result ≡ table_right (lent_policy policy table.now []) }
{
    let states = policy.states;
    let numbers = states_right(states)
        & (table.len() == PolicyNumbers::EVENTS as usize * states as usize)
        & (policy.start < states);
    numbers && entries_right(states, table)
}
