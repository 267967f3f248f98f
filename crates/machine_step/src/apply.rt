// Applies an effect to registers, memory and log.
ghost use Rattle.std.specs.Prelude.{◌≡◌, ◌^◌, ◌<◌, slice_index, slice_set};
ghost use Rattle.spec.specs.Machines.{apply_of, with_pair};
ghost use Rattle.machine_step.specs.program_point.ProgramPoints.{state_at};

use crate::program_point::Point;
use buffers::cells::poke;
use types::{Effect, Machine};

// Takes the next reading into r0, and records it as event v.
pub fn probe(
    v: u32,
    regs: &mut [u32; Machine::REGISTERS],
    at: Point,
    readings: &[u32],
    log: &mut [u32],
)
    requires { at.pairs < 2 ^ 62 }
    ensures { (regs.new ≡ slice_set regs.old 0 (slice_index readings.now at.used))
        × (log.new ≡ with_pair log.old at.pairs v (slice_index readings.now at.used)) }
{
    regs[0] = at.record_reading(v, readings, log);
}

// Applies an effect, and returns the point after it.
#[tactic(auto, unfolding(spec::specs::Machines::apply_of))]
pub fn apply(
    ceilings: &[u32],
    e: Effect,
    regs: &mut [u32; Machine::REGISTERS],
    at: Point,
    memory: &mut [u32],
    readings: &[u32],
    log: &mut [u32],
) -> Point
    requires { (at.pairs < 2 ^ 62) × (at.used < 2 ^ 63) }
    ensures { state_at regs.new result memory.new log.new
        ≡ apply_of ceilings.now readings.now e (state_at regs.old at memory.old log.old) }
{
    match e {
        Effect::Go(to) => at.jumped(to),
        Effect::SetReg(d, x) => {
            poke(regs, d, x);
            at.next()
        }
        Effect::SetCell(i, x) => {
            poke(memory, i, x);
            at.next()
        }
        Effect::Order(v) => {
            buffers::pairs::order(ceilings, v, regs[0], log, at.pairs);
            at.after_order()
        }
        Effect::Probe(v) => {
            probe(v, regs, at, readings, log);
            at.after_reading()
        }
        Effect::End(status) => at.ended(status),
        Effect::Wait(_) => at,
    }
}
