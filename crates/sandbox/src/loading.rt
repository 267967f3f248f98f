// Loads a routine: reads, rewrites, checks and installs in one call.
// All refusals are decided before anything is written, so a refusal leaves every slice as it was.
ghost use Rattle.std.specs.Prelude.{◌≤◌, ◌≡◌, length, IfOk};
ghost use Rattle.installer.specs.Lent.{policy_of_lent};
ghost use Rattle.sandbox_spec.specs.Loading.{load_of, load_commands, load_memory, loaded_of};

use crate::answers::translate_answer;
use crate::writing::write_routine;
use installer::{LentPolicy, install, install_answer};
use sandbox_spec::LoadedRoutine;
use types::{Layout, Reject};

// Answers the first refusal of the four parts. The loaded routine's commands are at the start of `commands`.
// The commands are checked before the policy is installed, though it is proved that the checker passes them.
pub fn load(
    layout: Layout,
    policy: LentPolicy,
    bytes: &[u8],
    commands: &mut [u64],
    memory: &mut [u32],
) -> Result<LoadedRoutine, Reject>
    ensures answer { loaded_of result ≡ load_of layout (policy_of_lent policy.entry) bytes.now
        (length commands.old) memory.old }
    ensures commands { commands.new ≡ load_commands layout (policy_of_lent policy.entry)
        bytes.now commands.old memory.old }
    ensures memory { memory.new ≡ load_memory layout (policy_of_lent policy.entry)
        bytes.now (length commands.old) memory.old }
    ensures within { IfOk result (λ l. l.commands ≤ length commands.new) }
{
    let length = translate_answer(layout, bytes, commands.len())?;
    install_answer(layout, policy, memory)?;
    write_routine(layout, bytes, commands);
    checker::check(layout, &commands[..length])?;
    let machine = install(layout, policy, memory)?;
    Ok(LoadedRoutine {
        machine,
        commands: length,
    })
}
