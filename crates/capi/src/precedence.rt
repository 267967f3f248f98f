// `hemdroas_precedence`: makes a policy from pairs of events.
ghost use Rattle.std.specs.Prelude.{◌≡◌, length};
ghost use Rattle.policy_spec.specs.precedence.Precedence.{make_of, make_table};
ghost use Rattle.capi.specs.precedence.Hosts.{precedence_to};

use capi_values::answers::{MADE, made_of};
use types::{Answer, Reject};

#[unsafe(no_mangle)]
pub extern "C" fn hemdroas_precedence(pairs: &[u8], table: &mut [u8], made: &mut [u32; MADE])
    ensures made { made.new ≡ precedence_to (make_of pairs.now (length table.old)) }
    ensures table { table.new ≡ make_table pairs.now table.old }
{
    *made = match policy_precedence::make(pairs, table) {
        Ok(m) => made_of(
            Answer::from(Ok(m.bytes)),
            m.policy.states,
            u32::from(m.unreachable),
        ),
        Err(reject) => made_of(Answer::from(Err::<usize, Reject>(reject)), 0, 0),
    };
}
