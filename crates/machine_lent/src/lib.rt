// Runs a machine whose record is lent by `&mut`. Each function calls the one by value, then stores the new record back.
#![tactic(auto)]

ghost use Rattle.spec.specs.Machines.{MatchesResult, run_of};
ghost use Rattle.machine_lent.specs.Outcomes.{as_outcome};

use types::{Layout, Machine, RunAnswer};

// Runs a machine and stores its new record.
pub fn run(
    layout: Layout,
    commands: &[u64],
    machine: &mut Machine,
    memory: &mut [u32],
    budget: u32,
    readings: &[u32],
    log: &mut [u32],
) -> RunAnswer
    ensures { MatchesResult (as_outcome machine.new result) memory.new log.new
        (run_of layout commands.now machine.old memory.old budget readings.now log.old) }
{
    let out = machine::run_value(layout, commands, *machine, memory, budget, readings, log);
    *machine = out.machine;
    out.answer
}

// Takes one step and stores the new record: a run of budget 1.
pub fn step(
    layout: Layout,
    commands: &[u64],
    machine: &mut Machine,
    memory: &mut [u32],
    readings: &[u32],
    log: &mut [u32],
) -> RunAnswer
    ensures { MatchesResult (as_outcome machine.new result)
        memory.new log.new (run_of layout commands.now machine.old memory.old 1 readings.now log.old) }
{
    let out = machine::step_value(layout, commands, *machine, memory, readings, log);
    *machine = out.machine;
    out.answer
}
