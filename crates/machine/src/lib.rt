// Runs the machine, or takes one step. The record goes in and out by value; `machine_lent` has the same by `&mut`.
#![tactic(auto)]

pub mod answers;
pub mod run_loop;
pub mod tiers;

ghost use Rattle.spec.specs.Machines.{MatchesResult, run_of};

use crate::run_loop::run_on;
use machine_step::program::Program;
use types::{Layout, Machine, Outcome};
use words::memory::fits;

// Runs at most `budget` commands. Refused as bad layout (7) if the layout is not right or memory has another length.
pub fn run_value(
    layout: Layout,
    commands: &[u64],
    machine: Machine,
    memory: &mut [u32],
    budget: u32,
    readings: &[u32],
    log: &mut [u32],
) -> Outcome
    ensures { MatchesResult result memory.new log.new
        (run_of layout commands.now machine memory.old budget readings.now log.old) }
{
    if !fits(layout, memory.len()) {
        return Outcome::refused(machine);
    }
    let program = Program {
        layout: &layout,
        commands,
        readings,
    };
    run_on(&program, machine, memory, budget, log)
}

// Takes one step: a run of budget 1.
pub fn step_value(
    layout: Layout,
    commands: &[u64],
    machine: Machine,
    memory: &mut [u32],
    readings: &[u32],
    log: &mut [u32],
) -> Outcome
    ensures { MatchesResult result memory.new log.new
        (run_of layout commands.now machine memory.old 1 readings.now log.old) }
{
    run_value(layout, commands, machine, memory, 1, readings, log)
}
