// `hemdroas_engine_run` and `hemdroas_engine_continue`: a run of guest words, with the engine's record and answer as arrays.
ghost use Rattle.std.specs.Prelude.{◌≡◌};
ghost use Rattle.types.specs.Names.{guest_registers};
ghost use Rattle.capi_spec.specs.Numbers.{numbers_after};
ghost use Rattle.capi_spec.specs.Hosts.{host_result};
ghost use Rattle.engine_spec.specs.Engines.{outcome_from};
ghost use Rattle.capi_spec.specs.engine.Records.{engine_from, engine_to, answer_to, NumbersFit, engine_for, continue_for};

use capi_values::layouts::{LAYOUT, layout_of};
use capi_values::records::{TRAILER, read_record, store_record};
use engine_spec::{Engine, EngineRun};
use types::Reject;

// How many numbers a record and an answer have.
pub const ENGINE_RECORD: usize = Engine::REGISTERS + TRAILER;

pub const ENGINE_ANSWER: usize = 5;

// Makes an engine from a record's numbers.
fn engine_of(xs: &[u32; ENGINE_RECORD]) -> Engine
    ensures { result ≡ engine_from xs.now }
{
    let mut regs = [0u32; Engine::REGISTERS];
    let status = read_record(xs, &mut regs);
    Engine {
        regs,
        at: xs[Engine::REGISTERS],
        status,
    }
}

// Stores what a run leaves. After a refusal the record is as it was, and so it is if its status is invalid.
#[tactic(auto, using(crate::proofs::engine_run::Laws::stays))]
fn store_run(
    engine: &mut [u32; ENGINE_RECORD],
    answer: &mut [u32; ENGINE_ANSWER],
    outcome: Result<EngineRun, Reject>,
)
    requires { NumbersFit (outcome_from (engine_from engine.old) outcome) }
    ensures engine { engine.new ≡ numbers_after guest_registers engine.old (engine_to (outcome_from (engine_from engine.old) outcome).engine) }
    ensures answer { answer.new ≡ answer_to (outcome_from (engine_from engine.old) outcome) }
{
    match outcome {
        Ok(run) => {
            let left = run.engine;
            store_record(engine, &left.regs, left.at, left.status);
            *answer = [
                u32::from(u8::from(run.ending)),
                0,
                run.steps,
                run.pairs as u32,
                run.used as u32,
            ];
        }
        Err(reject) => {
            *answer = [
                u32::from(u8::from(reject.refusal)),
                reject.place as u32,
                0,
                0,
                0,
            ];
        }
    }
}

// Runs guest words as they are written.
#[unsafe(no_mangle)]
pub extern "C" fn hemdroas_engine_run(
    layout: &[u32; LAYOUT],
    words: &[u64],
    engine: &mut [u32; ENGINE_RECORD],
    memory: &mut [u32],
    budget: u32,
    readings: &[u32],
    log: &mut [u32],
    answer: &mut [u32; ENGINE_ANSWER],
)
    ensures { host_result answer.new engine.new memory.new log.new
        ≡ engine_for layout.now words.now engine.old memory.old budget readings.now
        log.old }
{
    let lay = layout_of(layout);
    let m = engine_of(engine);
    let out = engine::run(lay, words, m, memory, budget, readings, log);
    store_run(engine, answer, out);
}

// Runs guest words without testing all of them first. Each is tested when it is reached; one that is no instruction faults.
#[unsafe(no_mangle)]
pub extern "C" fn hemdroas_engine_continue(
    layout: &[u32; LAYOUT],
    words: &[u64],
    engine: &mut [u32; ENGINE_RECORD],
    memory: &mut [u32],
    budget: u32,
    readings: &[u32],
    log: &mut [u32],
    answer: &mut [u32; ENGINE_ANSWER],
)
    ensures { host_result answer.new engine.new memory.new log.new
        ≡ continue_for layout.now words.now engine.old memory.old budget readings.now
        log.old }
{
    let lay = layout_of(layout);
    let m = engine_of(engine);
    let went = engine::resume(lay, words, m, memory, budget, readings, log);
    store_run(engine, answer, went);
}
