// What a command can see, except registers and memory.
ghost use Rattle.std.specs.Prelude.{◌≡◌, ◌*◌, ◌≤◌};
ghost use Rattle.types.specs.Names.{pair_cells};
ghost use Rattle.machine_step.specs.view.Views.{numbers_at};

use crate::program_point::Point;
use types::{Layout, RunAnswer};

// pc; the addresses M, P, B and Q; how many log cells are free, and how many readings are left.
#[derive(Clone, Copy)]
pub struct ViewNumbers {
    pub pc: u32,
    pub cell: u32,
    pub table: u32,
    pub base: u32,
    pub landings: u32,
    pub free: usize,
    pub left: usize,
}

// What a command sees at point `at`. The log has `room` cells, and the run was given `total` readings.
pub fn view_at(layout: Layout, at: Point, room: usize, total: usize) -> ViewNumbers
    requires { (pair_cells * at.pairs ≤ room) × (at.used ≤ total) }
    ensures { result ≡ numbers_at layout at room total }
{
    ViewNumbers {
        pc: at.pc,
        cell: layout.cell,
        table: layout.table,
        base: layout.base,
        landings: layout.landings,
        free: room - RunAnswer::PAIR_CELLS * at.pairs,
        left: total - at.used,
    }
}
