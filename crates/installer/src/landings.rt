// Tests a list of landings, and computes the cells that hold a bit for each landing.
ghost use Rattle.std.specs.Prelude.{◌≡◌, true, ◌/◌, ◌%◌, ◌^◌, ◌<◌, length, get_or, set};
ghost use Rattle.std.specs.Int.Bits.{bit_or};
ghost use Rattle.types.specs.Names.{most_bundles, landing_cells, cell_bits};
ghost use Rattle.spec.specs.Landings.{right_landings, landings_of};

use types::{Bundle, Layout};

// Every landing is below this.
const MOST_BUNDLES: u32 = Bundle::MOST as u32;

// Whether the landings rise strictly and none is above 1,023.
pub fn landings_right(landings: &[u32]) -> bool
    ensures { result ≡ right_landings landings.now }
{
    landings.is_sorted_by(|x, y| x < y) && landings.iter().all(|x| *x < MOST_BUNDLES)
}

pub const CELLS: usize = Layout::LANDING_CELLS as usize;

// Sets the bit of landing x.
#[tactic(auto, using(crate::proofs::landings::Marks::marked_in))]
fn mark(cells: &mut [u32; CELLS], x: u32)
    requires { (x < most_bundles) × (length cells.old ≡ landing_cells) }
    ensures { cells.new ≡ set cells.old (x / cell_bits)
        (bit_or (get_or cells.old (x / cell_bits) 0) (2 ^ (x % cell_bits))) }
{
    cells[(x / Layout::CELL_BITS) as usize] |= 1 << (x % Layout::CELL_BITS);
}

// The landing cells of a list: landing 32k + j is bit j of cell k.
#[tactic(auto, using(crate::proofs::landings::Marks::no_marks, crate::proofs::landings::Marks::below_most, crate::proofs::landings::Marks::mark_more, crate::proofs::landings::Marks::marked_all, crate::proofs::landings::Marks::marked_long))]
pub fn landing_cells(landings: &[u32]) -> [u32; CELLS]
    requires { right_landings landings.now ≡ true }
    ensures { result ≡ landings_of landings.now }
{
    let mut cells = [0; CELLS];
    for x in landings {
        mark(&mut cells, *x);
    }
    cells
}
