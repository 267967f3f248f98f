// `hemdroas_load`: turns a routine's bytes into an installed machine, in one call.
ghost use Rattle.std.specs.Prelude.{◌≡◌};
ghost use Rattle.spec.specs.Policies.{policy_of};
ghost use Rattle.capi_spec.specs.Hosts.{host_loaded, load_for};

use capi_values::answers::{ANSWER, answer_of};
use capi_values::layouts::{LAYOUT, layout_of};
use capi_values::machines::{MACHINE_RECORD, put_machine};
use installer::LentPolicy;
use types::{Answer, Machine, PolicyNumbers, Reject};

#[unsafe(no_mangle)]
pub extern "C" fn hemdroas_load(
    layout: &[u32; LAYOUT],
    states: u32,
    start: u32,
    table: &[u8],
    landings: &[u32],
    bytes: &[u8],
    commands: &mut [u64],
    memory: &mut [u32],
    machine: &mut [u32; MACHINE_RECORD],
    answer: &mut [u32; ANSWER],
)
    ensures { host_loaded answer.new machine.new commands.new memory.new
        ≡ load_for layout.now (policy_of states start table.now landings.now) bytes.now
        commands.old memory.old }
{
    let policy = LentPolicy {
        numbers: PolicyNumbers { states, start },
        table,
        landings,
    };
    match sandbox::load(layout_of(layout), policy, bytes, commands, memory) {
        Ok(loaded) => {
            put_machine(machine, loaded.machine);
            *answer = answer_of(Answer::from(Ok(loaded.commands)));
        }
        Err(reject) => {
            put_machine(machine, Machine::refused());
            *answer = answer_of(Answer::from(Err::<usize, Reject>(reject)));
        }
    }
}
