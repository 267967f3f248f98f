// Decides GOXR, the jump through a register: it goes only to a landing.
ghost use Rattle.std.specs.Prelude.{◌≡◌, if◌then◌else◌};
ghost use Rattle.types.specs.declared.Effect.TheVariants.{Go};
ghost use Rattle.spec.specs.Machines.{next_pc, is_landing};
ghost use Rattle.machine_step.specs.view.Views.{landing_effect};

use crate::installed::has_landing;
use crate::program_point::BUNDLE_LENGTH;
use crate::view::ViewNumbers;
use arith::alu;
use types::{Bundle, Effect, Status};

// Whether an address is B + 4j for a bundle j whose bit is set in the landing cells.
#[tactic(auto, unfolding(spec::specs::Machines::is_landing))]
pub fn is_landing(to: u32, base: u32, landings: u32, memory: &[u32]) -> bool
    ensures { result ≡ is_landing memory.now base landings to }
{
    if to < base {
        return false;
    }
    let off = to - base;
    let j = off / BUNDLE_LENGTH;
    if off % BUNDLE_LENGTH != 0 {
        return false;
    }
    if j as usize >= Bundle::MOST {
        return false;
    }
    has_landing(landings, j, memory)
}

// The effect of GOXR: a jump to `to` if the condition holds. A taken jump to no landing stops the machine as strayed.
pub fn jump_effect(holds: bool, to: u32, view: ViewNumbers, memory: &[u32]) -> Effect
    ensures { result ≡ (if holds then landing_effect view memory.now to else Go (next_pc view.pc)) }
{
    if holds {
        if is_landing(to, view.base, view.landings, memory) {
            return Effect::Go(to);
        }
        return Effect::End(Status::Strayed);
    }
    Effect::Go(alu::add(view.pc, 1))
}
