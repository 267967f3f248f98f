// The types of the engine of request 5, which runs guest words as they are written. Its definitions and claims are in specs/.
#![tactic(auto)]

use types::{Ending, Machine, Status};

// The engine's record: the guest's registers, the index of the next instruction, the status.
#[derive(Clone, Copy)]
pub struct Engine {
    pub regs: [u32; Engine::REGISTERS],
    pub at: u32,
    pub status: Status,
}

impl Engine {
    // The guest's registers: all but the hidden one, which is the last.
    pub const REGISTERS: usize = Machine::HIDDEN;
}

// The record that a run leaves, and its ending. Then how many instructions it counted, pairs it recorded and readings it used.
#[derive(Clone, Copy)]
pub struct EngineRun {
    pub engine: Engine,
    pub ending: Ending,
    pub steps: u32,
    pub pairs: usize,
    pub used: usize,
}
