// Decides EVENT in the engine.
ghost use Rattle.std.specs.Prelude.{◌≡◌, get_or};
ghost use Rattle.engine_spec.specs.Engines.{checked_event};
ghost use Rattle.engine_step.specs.events.Sees.{event_view};

use machine_step::installed::entry_in;
use types::{Effect, Layout, PolicyNumbers, Status};

// The effect of EVENT v in the present state, which the state cell has too, with free log cells and readings left.
// A fault is tested first, then no arrow (21), then the pauses.
#[tactic(auto, using(crate::proofs::events::Laws::faults, crate::proofs::events::Laws::stops, crate::proofs::events::Laws::sends))]
pub fn checked_event(
    layout: &Layout,
    v: u32,
    memory: &[u32],
    state: u32,
    free: usize,
    left: usize,
) -> Effect
    requires { state ≡ get_or memory.now layout.now.cell 0 }
    ensures { result ≡ checked_event v (event_view layout.now memory.now free left) }
{
    let i = entry_in(layout.table, state, v);
    if i >= memory.len() {
        return Effect::End(Status::Faulted);
    }
    if memory[i] == PolicyNumbers::NO_ARROW {
        return Effect::End(Status::Stopped);
    }
    machine_step::events::event(v, free, left)
}
