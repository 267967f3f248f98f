// Reads what installing wrote to memory: the policy's entries and the landing bits.
ghost use Rattle.std.specs.Prelude.{◌≡◌, ◌+◌, ◌*◌, ◌%◌};
ghost use Rattle.types.specs.Names.{events, cell_bits};
ghost use Rattle.spec.specs.Landings.{bit_at, marked};
ghost use Rattle.spec.specs.Machines.{entry_from};

use buffers::cells::peek;
use types::{Layout, PolicyNumbers};

// The address of the policy's entry for event v in a state: P + 16 × state + v, summed without wrap.
pub fn entry_in(table: u32, state: u32, v: u32) -> usize
    ensures { result ≡ table + events * state + v }
{
    table as usize + PolicyNumbers::EVENTS as usize * (state as usize) + v as usize
}

// The same for the present state, which is in cell `cell`.
pub fn entry_address(table: u32, cell: u32, v: u32, memory: &[u32]) -> usize
    ensures { result ≡ entry_from table cell memory.now v }
{
    let state = peek(memory, cell as usize);
    entry_in(table, state, v)
}

// Whether the bit of bundle j is set in its landing cell.
pub fn has_landing_bit(cell: u32, j: u32) -> bool
    ensures { result ≡ bit_at cell (j % cell_bits) }
{
    (cell >> (j % Layout::CELL_BITS)) % 2 == 1
}

// Whether the bit of bundle j is set in the landing cells.
#[tactic(auto, unfolding(spec::specs::Landings::marked))]
pub fn has_landing(landings: u32, j: u32, memory: &[u32]) -> bool
    ensures { result ≡ marked memory.now landings j }
{
    let bits = peek(memory, landings as usize + (j / Layout::CELL_BITS) as usize);
    has_landing_bit(bits, j)
}
