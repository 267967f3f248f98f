// `hemdroas_install`: writes a policy into memory.
ghost use Rattle.std.specs.Prelude.{◌≡◌};
ghost use Rattle.spec.specs.Policies.{policy_of};
ghost use Rattle.capi_spec.specs.Hosts.{host_installed, install_for};

use capi_values::answers::{ANSWER, answer_of};
use capi_values::layouts::{LAYOUT, layout_of};
use capi_values::machines::{MACHINE_RECORD, put_machine};
use installer::LentPolicy;
use types::{Answer, Machine, PolicyNumbers, Reject};

#[unsafe(no_mangle)]
pub extern "C" fn hemdroas_install(
    layout: &[u32; LAYOUT],
    states: u32,
    start: u32,
    table: &[u8],
    landings: &[u32],
    memory: &mut [u32],
    machine: &mut [u32; MACHINE_RECORD],
    answer: &mut [u32; ANSWER],
)
    ensures { host_installed answer.new machine.new memory.new
        ≡ install_for layout.now (policy_of states start table.now landings.now) memory.old }
{
    let policy = LentPolicy {
        numbers: PolicyNumbers { states, start },
        table,
        landings,
    };
    match installer::install(layout_of(layout), policy, memory) {
        Ok(installed) => {
            put_machine(machine, installed);
            *answer = answer_of(Answer::from(Ok::<(), Reject>(())));
        }
        Err(reject) => {
            put_machine(machine, Machine::refused());
            *answer = answer_of(Answer::from(Err::<(), Reject>(reject)));
        }
    }
}
