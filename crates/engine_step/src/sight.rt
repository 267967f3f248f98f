// What an instruction sees.
ghost use Rattle.std.specs.Prelude.{◌≡◌, length, get_or};
ghost use Rattle.engine_spec.specs.Engines.{LayoutWithin};

use engine_spec::Engine;
use types::Layout;

// Layout, registers and memory; the present state, which the state cell has too; the index, free log cells, and readings left.
#[derive(Clone, Copy)]
pub struct Sight<'a> {
    pub layout: &'a Layout,
    pub regs: &'a [u32; Engine::REGISTERS],
    pub memory: &'a [u32],
    pub state: u32,
    pub at: u32,
    pub free: usize,
    pub left: usize,
    ghost within: { LayoutWithin layout.now (length memory.now) },
    ghost mirrored: { state ≡ get_or memory.now layout.now.cell 0 },
}
