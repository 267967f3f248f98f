// Installs a policy: writes its start state, table and landing bits into memory, and yields a fresh machine record.
#![tactic(auto)]

pub mod landings;
pub mod table;
pub mod table_words;

ghost use Rattle.std.specs.Prelude.{◌≡◌, true, []};
ghost use Rattle.types.specs.Results.{verdict_of, installed_of};
ghost use Rattle.spec.specs.Layouts.{right_layout};
ghost use Rattle.spec.specs.Policies.{lent_policy, right_policy};
ghost use Rattle.spec.specs.Machines.{install_answer, install_of, install_memory};
ghost use Rattle.installer.specs.Lent.{policy_of_lent};

use crate::landings::{landing_cells, landings_right};
use crate::table::table_right;
pub use crate::table_words::word_right;
use buffers::cells::poke;
use buffers::stores::{store, store_bytes};
use types::{Layout, Machine, PolicyNumbers, Refusal, Reject};
use words::memory::fits;

// A policy as a host lends it: its numbers, its table of 16 bytes a state, and its landings.
#[derive(Clone, Copy)]
pub struct LentPolicy<'a> {
    pub numbers: PolicyNumbers,
    pub table: &'a [u8],
    pub landings: &'a [u32],
}

// Whether a policy fits a right layout. If not, it is refused as bad policy (10).
#[tactic(auto, using(crate::proofs::Installs::own_states, crate::proofs::Installs::other_states))]
fn policy_right(layout: Layout, policy: PolicyNumbers, table: &[u8]) -> bool
    requires { right_layout layout ≡ true }
    ensures { result ≡ right_policy layout (lent_policy policy table.now []) }
{
    policy.states == layout.states && table_right(policy, table)
}

// What installing answers. It writes nothing.
#[tactic(auto, using(crate::proofs::Installs::layout_is, crate::proofs::Installs::no_layout, crate::proofs::Installs::no_policy, crate::proofs::Installs::no_landings, crate::proofs::Installs::all_right))]
pub fn install_answer(layout: Layout, policy: LentPolicy, memory: &[u32]) -> Result<(), Reject>
    ensures { verdict_of result
        ≡ install_answer layout (policy_of_lent policy.entry) memory.now }
{
    if !fits(layout, memory.len()) {
        return Err(Reject::from(Refusal::BadLayout));
    }
    if !policy_right(layout, policy.numbers, policy.table) {
        return Err(Reject::from(Refusal::BadPolicy));
    }
    if !landings_right(policy.landings) {
        return Err(Reject::from(Refusal::BadLandings));
    }
    Ok(())
}

// Writes the start state to the state cell, the table to its cells, the landing bits to theirs, and nothing else.
// Its two callers inline it: a call of its own takes 300 bytes of stack more.
#[inline(always)]
#[tactic(auto, using(crate::proofs::Installs::refused_record, crate::proofs::Installs::refused_memory, crate::proofs::Installs::landings_are, crate::proofs::Installs::table_fits, crate::proofs::Installs::landings_fit, crate::proofs::Installs::record_made, crate::proofs::Installs::laid))]
pub fn install(layout: Layout, policy: LentPolicy, memory: &mut [u32]) -> Result<Machine, Reject>
    ensures value { installed_of result
        ≡ install_of layout (policy_of_lent policy.entry) memory.old }
    ensures leaves { memory.new
        ≡ install_memory layout (policy_of_lent policy.entry) memory.old }
{
    install_answer(layout, policy, memory)?;
    poke(memory, layout.cell as usize, policy.numbers.start);
    store_bytes(memory, layout.table as usize, policy.table);
    store(
        memory,
        layout.landings as usize,
        &landing_cells(policy.landings),
    );
    Ok(Machine::new(layout.base))
}
