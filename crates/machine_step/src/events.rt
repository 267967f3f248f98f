// Decides LOOK and EVENT: the policy's entry for an event, and the pauses before it.
ghost use Rattle.std.specs.Prelude.{◌≡◌};
ghost use Rattle.spec.specs.Machines.{event_effect, if_room};
ghost use Rattle.machine_step.specs.view.Views.{look_effect};

use crate::effects::load_effect;
use crate::installed::entry_address;
use types::{Effect, Ending, PolicyNumbers, RunAnswer, Status};

// The effect of LOOK: the policy's entry for event v in the present state goes to register d. Its address is summed without wrap.
pub fn look(d: usize, cell: u32, table: u32, v: u32, memory: &[u32]) -> Effect
    ensures { result ≡ look_effect d cell table v memory.now }
{
    if (cell as usize) < memory.len() {
        return load_effect(d, entry_address(table, cell, v, memory), memory);
    }
    Effect::End(Status::Faulted)
}

// Effect e, or a pause for log full (23) if fewer than two log cells are free.
fn unless_log_full(free: usize, e: Effect) -> Effect
    ensures { result ≡ if_room free e }
{
    if free < RunAnswer::PAIR_CELLS {
        return Effect::Wait(Ending::LogFull);
    }
    e
}

// The effect of EVENT: an order or a reading, or the pause before it. Probe silent (24) is tested before log full (23).
pub fn event(v: u32, free: usize, left: usize) -> Effect
    ensures { result ≡ event_effect v free left }
{
    if v < PolicyNumbers::ORDERS {
        return unless_log_full(free, Effect::Order(v));
    }
    if left == 0 {
        return Effect::Wait(Ending::Silent);
    }
    unless_log_full(free, Effect::Probe(v))
}
