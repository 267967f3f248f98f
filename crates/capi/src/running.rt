// `hemdroas_run` and `hemdroas_preview`: a run, and a run on a copy.
ghost use Rattle.std.specs.Prelude.{◌≡◌, ◌&&◌, cond, eqb, length};
ghost use Rattle.spec.specs.Machines.{fits, MatchesResult, run_of};
ghost use Rattle.capi_spec.specs.Hosts.{host_result, run_for, host_previewed, preview_for};

use buffers::stores::store;
use capi_values::answers::{RUN_ANSWER, run_answer_of};
use capi_values::layouts::{LAYOUT, layout_of};
use capi_values::machines::{MACHINE_RECORD, machine_of, store_machine};
use types::{Ending, Layout, Machine, Outcome, RunAnswer};
use words::memory::fits;

// Runs a machine that is passed by value: it lends a local copy to `sandbox::run`.
fn lend(
    layout: Layout,
    commands: &[u64],
    machine: Machine,
    memory: &mut [u32],
    budget: u32,
    readings: &[u32],
    log: &mut [u32],
) -> Outcome
    ensures { MatchesResult result memory.new log.new
        (run_of layout commands.now machine memory.old budget readings.now log.old) }
{
    let mut lent = machine;
    let answer = sandbox::run(layout, commands, &mut lent, memory, budget, readings, log);
    Outcome {
        machine: lent,
        answer,
    }
}

// Runs a machine. If the run is refused, the record stays as it was.
#[unsafe(no_mangle)]
pub extern "C" fn hemdroas_run(
    layout: &[u32; LAYOUT],
    commands: &[u64],
    machine: &mut [u32; MACHINE_RECORD],
    memory: &mut [u32],
    budget: u32,
    readings: &[u32],
    log: &mut [u32],
    answer: &mut [u32; RUN_ANSWER],
)
    ensures { host_result answer.new machine.new memory.new log.new
        ≡ run_for layout.now commands.now machine.old memory.old budget readings.now
        log.old }
{
    let lay = layout_of(layout);
    let m = machine_of(machine);
    let out = lend(lay, commands, m, memory, budget, readings, log);
    *answer = run_answer_of(out.answer);
    store_machine(machine, out.machine);
}

// Copies memory into `work` if the layout is right and both have its length. Returns whether it did; if not, `work` stays as it was.
#[tactic(auto, using(crate::proofs::running::Laws::fits_copy, crate::proofs::running::Laws::judged, crate::proofs::running::Laws::copies, crate::proofs::running::Laws::leaves))]
fn copy_memory(layout: Layout, memory: &[u32], work: &mut [u32]) -> bool
    ensures copied { result ≡ (fits layout memory.now && eqb (length work.old) layout.size) }
    ensures work { work.new ≡ cond result memory.now work.old }
{
    let fitting = fits(layout, memory.len()) & (work.len() == layout.size as usize);
    if fitting {
        store(work, 0, memory);
    }
    fitting
}

// Previews a run. Answer and log are those of `hemdroas_run`; its record goes to `after`, its memory to `work`.
#[unsafe(no_mangle)]
pub extern "C" fn hemdroas_preview(
    layout: &[u32; LAYOUT],
    commands: &[u64],
    machine: &[u32; MACHINE_RECORD],
    memory: &[u32],
    work: &mut [u32],
    budget: u32,
    readings: &[u32],
    log: &mut [u32],
    after: &mut [u32; MACHINE_RECORD],
    answer: &mut [u32; RUN_ANSWER],
)
    ensures { host_previewed (host_result answer.new after.new work.new log.new) machine.now
        memory.now ≡ preview_for layout.now commands.now machine.now memory.now
        work.old budget readings.now log.old }
{
    store(after, 0, machine);
    if copy_memory(layout_of(layout), memory, work) {
        hemdroas_run(layout, commands, after, work, budget, readings, log, answer);
        return;
    }
    *answer = run_answer_of(RunAnswer {
        ending: Ending::Refused,
        steps: 0,
        pairs: 0,
        used: 0,
    });
}
