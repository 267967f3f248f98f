// Builds the outcome of a run: the record that it leaves, its ending and its counts.
ghost use Rattle.std.specs.Prelude.{◌≡◌};
ghost use Rattle.types.specs.Records.{machine_of, outcome_of};

use machine_step::program_point::LoopExit;
use types::{Machine, Outcome, RunAnswer};

// The outcome of a run that ends or pauses.
pub fn finish(regs: [u32; Machine::REGISTERS], exit: LoopExit) -> Outcome
    ensures { result ≡ outcome_of (machine_of regs exit.at.pc exit.at.status) exit.ending exit.steps exit.at.pairs exit.at.used }
{
    let at = exit.at;
    Outcome {
        machine: Machine::from_parts(regs, at.pc, at.status),
        answer: RunAnswer {
            ending: exit.ending,
            steps: exit.steps,
            pairs: at.pairs,
            used: at.used,
        },
    }
}
