// The engine of request 5. It runs guest words as they are written, under the guest rule. To judge a word is to test whether it is an instruction.
#![tactic(auto)]

pub mod refusal;
pub mod run_loop;

ghost use Rattle.std.specs.Prelude.{◌≡◌, Ok, length};
ghost use Rattle.types.specs.declared.Status.TheVariants.{Running};
ghost use Rattle.spec.specs.Machines.{run_result_of};
ghost use Rattle.machine_step.specs.program_point.ProgramPoints.{point_of};
ghost use Rattle.engine_spec.specs.Engines.{LayoutWithin, outcome_from, start_of, run_of};
ghost use Rattle.engine_spec.specs.Continues.{continue_from, continue_of};
ghost use Rattle.engine.specs.run_loop.Segments.{run_after, rest_of};

use crate::run_loop::run_loop;
use engine_spec::{Engine, EngineRun};
use engine_step::fetch::Routine;
use engine_step::plan::Plan;
use machine_step::program_point::{LoopExit, Point};
use types::{Ending, Layout, Reject, Status};

// What a run leaves after its loop.
fn finish(regs: [u32; Engine::REGISTERS], exit: LoopExit) -> EngineRun
    ensures { result ≡ run_after regs exit }
{
    EngineRun {
        engine: Engine {
            regs,
            at: exit.at.pc,
            status: exit.at.status,
        },
        ending: exit.ending,
        steps: exit.steps,
        pairs: exit.at.pairs,
        used: exit.at.used,
    }
}

// The run of an engine that is not running: it changes nothing, and its ending is again that of its status.
fn at_rest(engine: Engine) -> EngineRun
    ensures { result ≡ rest_of engine }
{
    EngineRun {
        engine,
        ending: Ending::from(engine.status),
        steps: 0,
        pairs: 0,
        used: 0,
    }
}

// Runs an engine in any status.
#[tactic(auto, using(crate::proofs::Running::rests, crate::proofs::Running::ends, crate::proofs::Running::counts_start))]
fn run_on(
    layout: Layout,
    routine: Routine,
    engine: Engine,
    memory: &mut [u32],
    budget: u32,
    readings: &[u32],
    log: &mut [u32],
) -> EngineRun
    requires { LayoutWithin layout (length memory.old) }
    ensures { run_result_of (outcome_from engine (Ok result)) memory.new log.new
        ≡ continue_from layout routine.entry.words.now readings.now budget 0 (start_of engine memory.old log.old) }
{
    if engine.status != Status::Running {
        return at_rest(engine);
    }
    let mut regs = engine.regs;
    let ceilings = layout.ceilings;
    let plan = Plan {
        layout: &layout,
        ceilings: &ceilings,
    };
    let exit = run_loop(
        plan,
        routine,
        &mut regs,
        Point::start(engine.at),
        memory,
        budget,
        readings,
        log,
    );
    finish(regs, exit)
}

// Runs the engine, with the record by value. All words are judged first. Refused as bad layout (7), then as oversize (5). Then the first bad
// word is refused as unknown variety (3), foreign matter (2), off grade (4) or bad landing (8). A refused run changes nothing.
#[tactic(auto, using(crate::proofs::Running::runs))]
pub fn run(
    layout: Layout,
    words: &[u64],
    engine: Engine,
    memory: &mut [u32],
    budget: u32,
    readings: &[u32],
    log: &mut [u32],
) -> Result<EngineRun, Reject>
    ensures { run_result_of (outcome_from engine result) memory.new log.new
        ≡ run_of layout words.now engine memory.old budget readings.now log.old }
{
    crate::refusal::run_refusal(layout, words, memory.len())?;
    let routine = Routine::judged(words);
    Ok(run_on(layout, routine, engine, memory, budget, readings, log))
}

// Runs words that were judged before, and does not judge all of them again. Refused as bad layout (7), then as oversize (5).
// Each word is judged when it is reached. One that is no instruction faults (22), so any words are safe.
#[tactic(auto, using(crate::proofs::Running::resumes))]
pub fn resume(
    layout: Layout,
    words: &[u64],
    engine: Engine,
    memory: &mut [u32],
    budget: u32,
    readings: &[u32],
    log: &mut [u32],
) -> Result<EngineRun, Reject>
    ensures { run_result_of (outcome_from engine result) memory.new log.new
        ≡ continue_of layout words.now engine memory.old budget readings.now log.old }
{
    crate::refusal::continue_refusal(layout, words, memory.len())?;
    let routine = Routine::unjudged(words);
    Ok(run_on(layout, routine, engine, memory, budget, readings, log))
}
