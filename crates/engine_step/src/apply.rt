// Applies an effect to the engine's registers, memory and log.
ghost use Rattle.std.specs.Prelude.{◌≡◌, ◌-◌, ◌<◌, ◌^◌, length, get_or, set};
ghost use Rattle.spec.specs.Machines.{with_pair};
ghost use Rattle.engine_spec.specs.Engines.{entry_at, InRange, apply_effect};
ghost use Rattle.machine_step.specs.program_point.ProgramPoints.{state_at};

use crate::plan::Plan;
use buffers::cells::peek;
use buffers::pairs::write_pair;
use engine_spec::Engine;
use machine_step::installed::entry_in;
use machine_step::program_point::Point;
use types::{Effect, Layout};

// Sets the state and its cell to the state after event v. The entry is in memory, yet `peek`, whose test the compiler drops, makes the loop shorter.
fn move_state(layout: &Layout, v: u32, state: &mut u32, memory: &mut [u32])
    requires { (layout.now.cell < length memory.old) × (state.old ≡ get_or memory.old layout.now.cell 0) }
    ensures moved { memory.new ≡ set memory.old layout.now.cell (entry_at layout.now memory.old v) }
    ensures mirrored { state.new ≡ get_or memory.new layout.now.cell 0 }
{
    let x = peek(memory, entry_in(layout.table, *state, v));
    memory[layout.cell as usize] = x;
    *state = x;
}

// Takes the next reading, which is known to exist, into r0, and records it as event v.
fn probe(v: u32, regs: &mut [u32; Engine::REGISTERS], at: Point, readings: &[u32], log: &mut [u32])
    requires { (at.pairs < 2 ^ 62) × (at.used < length readings.now) }
    ensures { (regs.new ≡ set regs.old 0 (get_or readings.now at.used 0))
        × (log.new ≡ with_pair log.old at.pairs v (get_or readings.now at.used 0)) }
{
    let x = readings[at.used];
    write_pair(log, at.pairs, v, x);
    regs[0] = x;
}

// Applies an effect, and returns the point after it. The effect is in range, so no register and no cell is tested.
// The present state is a local of the loop, so that no event reads its cell.
#[tactic(auto, using(crate::proofs::apply::Laws::stored_apart, crate::proofs::apply::Laws::reading_left), unfolding(spec::specs::Machines::apply_of, engine_spec::specs::Engines::apply_effect, engine_spec::specs::Engines::with_state))]
pub fn apply(
    e: Effect,
    plan: Plan,
    regs: &mut [u32; Engine::REGISTERS],
    at: Point,
    state: &mut u32,
    memory: &mut [u32],
    readings: &[u32],
    log: &mut [u32],
) -> Point
    requires { InRange plan.layout.now memory.old (length readings.now - at.used) e × (plan.layout.now.cell < length memory.old)
        × (at.pairs < 2 ^ 62) × (at.used < 2 ^ 63) × (state.old ≡ get_or memory.old plan.layout.now.cell 0) }
    ensures applied { state_at regs.new result memory.new log.new
        ≡ apply_effect plan.entry.layout.now readings.now e (state_at regs.old at memory.old log.old) }
    ensures mirrored { state.new ≡ get_or memory.new plan.entry.layout.now.cell 0 }
{
    let next = at.next();
    match e {
        Effect::Go(to) => at.jumped(to),
        Effect::SetReg(d, x) => {
            regs[d] = x;
            next
        }
        Effect::SetCell(i, x) => {
            memory[i] = x;
            next
        }
        Effect::Order(v) => {
            move_state(plan.layout, v, state, memory);
            let ceilings = plan.ceilings;
            buffers::pairs::order(ceilings, v, regs[0], log, at.pairs);
            at.after_order()
        }
        Effect::Probe(v) => {
            move_state(plan.layout, v, state, memory);
            probe(v, regs, at, readings, log);
            at.after_reading()
        }
        Effect::End(status) => at.ended(status),
        Effect::Wait(_) => at,
    }
}
