// `hemdroas_merge`: makes one policy from two.
ghost use Rattle.std.specs.Prelude.{◌≡◌};
ghost use Rattle.policy_merge.specs.Results.{policy_of_side, merged_of};
ghost use Rattle.capi.specs.merge.Numbers.{ceilings_from, policy_from, merged_to, host_merged, merge_for};

use buffers::stores::store;
use capi_values::answers::{ANSWER, answer_of};
use capi_values::layouts::ceilings_from;
use policy_merge::{MergedPolicy, Side};
use types::{Answer, Layout, PolicyNumbers, Reject};

// Where the ceilings begin in a policy's numbers, after states and start, and how many numbers there are.
const POLICY_CEILINGS: usize = 2;

pub const POLICY: usize = POLICY_CEILINGS + Layout::CEILINGS;

fn side_of<'a>(xs: &[u32; POLICY], table: &'a [u8]) -> Side<'a>
    ensures policy { policy_of_side result ≡ policy_from xs.now table.now }
    ensures ceilings { result.ceilings ≡ ceilings_from xs.now }
{
    let policy = PolicyNumbers {
        states: xs[0],
        start: xs[1],
    };
    let ceilings = ceilings_from(xs, POLICY_CEILINGS);
    Side {
        policy,
        table,
        ceilings,
    }
}

fn merged_numbers(m: MergedPolicy) -> [u32; POLICY]
    ensures { result ≡ merged_to (merged_of (Ok m)) }
{
    let mut xs = [0u32; POLICY];
    xs[0] = m.policy.states;
    xs[1] = m.policy.start;
    store(&mut xs, POLICY_CEILINGS, &m.ceilings);
    xs
}

#[unsafe(no_mangle)]
pub extern "C" fn hemdroas_merge(
    one: &[u32; POLICY],
    left: &[u8],
    other: &[u32; POLICY],
    right: &[u8],
    table: &mut [u8],
    merged: &mut [u32; POLICY],
    answer: &mut [u32; ANSWER],
)
    ensures { host_merged answer.new merged.new table.new
        ≡ merge_for one.now left.now other.now right.now table.old }
{
    match policy_merge::merge(side_of(one, left), side_of(other, right), table) {
        Ok(m) => {
            *merged = merged_numbers(m);
            *answer = answer_of(Answer::from(Ok(m.bytes)));
        }
        Err(reject) => {
            *merged = [0; POLICY];
            *answer = answer_of(Answer::from(Err::<usize, Reject>(reject)));
        }
    }
}
