// Decides GOIF and GOX in the engine.
ghost use Rattle.std.specs.Prelude.{◌≡◌, cond, ◌+◌, ◌<◌, ◌≤◌, length};
ghost use Rattle.types.specs.Names.{landing_cells, most_bundles};
ghost use Rattle.types.specs.declared.Effect.TheVariants.{Go};
ghost use Rattle.spec.specs.Landings.{marked};
ghost use Rattle.spec.specs.Machines.{next_pc};
ghost use Rattle.engine_spec.specs.Engines.{indirect_effect};
ghost use Rattle.engine_step.specs.fetch.Fetched.{LastIndex};

use machine_step::installed::has_landing_bit;
use types::{Effect, Layout, Status};
use words::alu;
use words::memory::mask;

// The effect of GOIF: to its target if the condition holds, else to the next instruction.
pub fn branch_effect(holds: bool, to: u32, at: u32) -> Effect
    ensures { result ≡ cond holds (Go to) (Go (next_pc at)) }
{
    if holds {
        return Effect::Go(to);
    }
    Effect::Go(alu::add(at, 1))
}

// Whether the bit of instruction j is set in the landing cells. The machine's `has_landing` tests whether the cell exists; here it is known to,
// and the test would cost each taken jump two instructions.
#[tactic(auto, unfolding(spec::specs::Landings::marked))]
fn has_landing(j: u32, landings: u32, memory: &[u32]) -> bool
    requires { (j < most_bundles) × (landings + landing_cells ≤ length memory.now) }
    ensures { result ≡ marked memory.now landings j }
{
    let bits = memory[landings as usize + (j / Layout::CELL_BITS) as usize];
    has_landing_bit(bits, j)
}

// The effect of a taken GOX: to instruction rd modulo N if that is a landing, else it stops. N is a power of two, so a mask gives the modulo.
#[tactic(auto, using(crate::proofs::jumps::Laws::land_below, crate::proofs::jumps::Laws::land_goes, crate::proofs::jumps::Laws::land_strays))]
fn jump_to_landing(to: u32, top: u32, landings: u32, memory: &[u32]) -> Effect
    requires { LastIndex top × (landings + landing_cells ≤ length memory.now) }
    ensures { result ≡ indirect_effect memory.now landings (top + 1) to }
{
    let j = mask(to, 0, top);
    if has_landing(j, landings, memory) {
        return Effect::Go(j);
    }
    Effect::End(Status::Strayed)
}

// The effect of GOX. Only a taken one looks up its landing. rd comes first, so the caller reads it before it tests the condition, which is faster.
// It takes what it needs, and no `Routine` or `Sight`: these know more than it asks.
pub fn jump_effect(to: u32, holds: bool, at: u32, top: u32, landings: u32, memory: &[u32]) -> Effect
    requires { LastIndex top × (landings + landing_cells ≤ length memory.now) }
    ensures { result ≡ cond holds (indirect_effect memory.now landings (top + 1) to) (Go (next_pc at)) }
{
    if holds {
        return jump_to_landing(to, top, landings, memory);
    }
    Effect::Go(alu::add(at, 1))
}
