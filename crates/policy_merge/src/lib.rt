// Request 7, 'Two policies at once': merges two policies. A state is a pair of states s and t.
// The search stores the pair as 16 × s + t + 1; 0 means no pair.
#![tactic(auto)]

ghost use Rattle.std.specs.Prelude.{◌≡◌, ◌+◌, ◌*◌, ◌^◌, ◌<◌, length, get_or, IfSome};
ghost use Rattle.types.specs.Names.{events, no_arrow};
ghost use Rattle.policy_spec.specs.tables.Arrows.{arrow_from};
ghost use Rattle.policy_spec.specs.reachability.Worklists.{node_number, Explored};
ghost use Rattle.policy_spec.specs.reachability.Results.{made_of};
ghost use Rattle.policy_merge.specs.Pairs.{side_policy, pair as pair_of, pair_after, start_pair, side_right};
ghost use Rattle.policy_merge.specs.Pairs.{smaller as smallerOf, merge_made, merge_of, merge_table};
ghost use Rattle.policy_merge.specs.Results.{policy_of_side, merged_of};

use installer::table::table_right;
use policy_reachability::Worklist;
use policy_spec::reachability::NewPolicy;
use policy_spec::tables::{EVENTS, MOST_STATES, NO_ARROW};
use std::array;
use std::num::NonZeroU16;
use types::{Layout, PolicyNumbers, Refusal, Reject};

// One of the two policies: its numbers, its table and its ceilings.
#[derive(Clone, Copy)]
pub struct Side<'a> {
    pub policy: PolicyNumbers,
    pub table: &'a [u8],
    pub ceilings: [u32; Layout::CEILINGS],
}

// A merged policy: how many bytes of its table were written, its numbers, and its ceilings.
#[derive(Clone, Copy)]
pub struct MergedPolicy {
    pub bytes: usize,
    pub policy: PolicyNumbers,
    pub ceilings: [u32; Layout::CEILINGS],
}

impl Side<'_> {
    // Whether the policy is right. If not, it is refused as bad policy (10).
    fn right(&self) -> bool
        ensures { result ≡ side_right (policy_of_side self.now) }
    {
        table_right(self.policy, self.table)
    }

    // The state after event n in state s, if there is an arrow. Past the end of the table there is none.
    fn arrow(&self, s: usize, n: usize) -> Option<usize>
        requires { (s < 2 ^ 16) × (n < events) }
        ensures arrow { result ≡ arrow_from (get_or self.now.table.now (events * s + n) no_arrow) }
        ensures byte { IfSome result (λ t. t < 256) }
    {
        let entry = usize::from(*self.table.get(EVENTS * s + n)?);
        if entry == NO_ARROW { None } else { Some(entry) }
    }
}

// The number of a pair of states.
fn pair(s: usize, t: usize) -> u16
    requires { (s < 256) × (t < 256) }
    ensures { result ≡ pair_of s t }
{
    (MOST_STATES * s + t + 1) as u16
}

// The pair after event n in pair x, if both states have an arrow.
fn pair_after(one: &Side, other: &Side, x: u16, n: usize) -> Option<NonZeroU16>
    requires { n < events }
    ensures { node_number result ≡ pair_after (policy_of_side one.now) (policy_of_side other.now) x n }
{
    let p = usize::from(x.checked_sub(1)?);
    let s = one.arrow(p / MOST_STATES, n)?;
    let t = other.arrow(p % MOST_STATES, n)?;
    NonZeroU16::new(pair(s, t))
}

// Finds all pairs that events lead to from the start pair.
fn explore(one: &Side, other: &Side) -> Worklist
    requires { (one.now.policy.start < 256) × (other.now.policy.start < 256) }
    ensures { Explored (pair_after (policy_of_side one.now) (policy_of_side other.now)) (start_pair (policy_of_side one.now) (policy_of_side other.now))
        result }
{
    let start = pair(one.policy.start as usize, other.policy.start as usize);
    policy_reachability::explore(start, |x, n| pair_after(one, other, x, n))
}

// The smaller of the two ceilings of each order.
fn smaller(c: [u32; Layout::CEILINGS], d: [u32; Layout::CEILINGS]) -> [u32; Layout::CEILINGS]
    ensures { result ≡ smallerOf c d }
{
    array::from_fn(|i| c[i].min(d[i]))
}

// Makes the merged policy without ceilings, or refuses it.
fn merge_made(one: &Side, other: &Side, table: &mut [u8]) -> Result<NewPolicy, Reject>
    ensures made { made_of result ≡ merge_made (policy_of_side one.now) (policy_of_side other.now) (length table.old) }
    ensures table { table.new ≡ merge_table (policy_of_side one.now) (policy_of_side other.now) table.old }
{
    let right = one.right() & other.right();
    if !right {
        return Err(Refusal::BadPolicy.into());
    }
    explore(one, other).write_policy(table)
}

// Merges two policies: writes the merged table to the start of `table`, and answers its numbers and ceilings.
pub fn merge(one: Side, other: Side, table: &mut [u8]) -> Result<MergedPolicy, Reject>
    ensures merged { merged_of result ≡ merge_of (policy_of_side one.entry) one.entry.ceilings (policy_of_side other.entry)
        other.entry.ceilings (length table.old) }
    ensures table { table.new ≡ merge_table (policy_of_side one.entry) (policy_of_side other.entry) table.old }
{
    let made = merge_made(&one, &other, table)?;
    Ok(MergedPolicy {
        bytes: made.bytes,
        policy: made.policy,
        ceilings: smaller(one.ceilings, other.ceilings),
    })
}
