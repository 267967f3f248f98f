// Tests whether a layout is right, and masks an address into its sandbox.
ghost use Rattle.std.specs.Prelude.{◌≡◌, ◌||◌, leb};
ghost use Rattle.spec.specs.Layouts.{right_layout, in_range, box_right, table_end, landings_end, in_memory, disjoint, fits_cells, mask_of, width_of};

use std::ops::Range;
use types::{Layout, PolicyNumbers};

// Whether U and S are in range. B is by its type.
fn in_range(l: Layout) -> bool
    ensures { result ≡ in_range l }
{
    (1..=Layout::MOST_CELLS).contains(&l.size) & (1..=Layout::MOST_STATES).contains(&l.states)
}

// Whether the sandbox's size is a power of two, and SL a multiple of it. SL ≤ SH < U is tested first, because SH − SL + 1 could wrap otherwise.
fn box_right(l: Layout) -> bool
    ensures { result ≡ box_right l }
{
    if (l.high < l.low) | (l.size <= l.high) {
        return false;
    }
    let span = l.high - l.low + 1;
    span.count_ones() == 1 && l.low.is_multiple_of(span)
}

fn table_end(l: Layout) -> u64
    ensures { result ≡ table_end l }
{
    u64::from(l.table) + u64::from(PolicyNumbers::EVENTS) * u64::from(l.states)
}

fn landings_end(l: Layout) -> u64
    ensures { result ≡ landings_end l }
{
    u64::from(l.landings) + u64::from(Layout::LANDING_CELLS)
}

fn in_memory(l: Layout) -> bool
    ensures { result ≡ in_memory l }
{
    let size = u64::from(l.size);
    (l.cell < l.size) & (table_end(l) <= size) & (landings_end(l) <= size)
}

// Whether two ranges share no address.
fn apart(a: &Range<u64>, b: &Range<u64>) -> bool
    ensures { result ≡ (leb a.now.end b.now.start || leb b.now.end a.now.start) }
{
    (a.end <= b.start) | (b.end <= a.start)
}

// Whether sandbox, state cell, table cells and landing cells share no address.
#[tactic(auto, using(crate::proofs::memory::Boxes::past))]
fn disjoint(l: Layout) -> bool
    ensures { result ≡ disjoint l }
{
    let sandbox = u64::from(l.low)..u64::from(l.high) + 1;
    let cell = u64::from(l.cell)..u64::from(l.cell) + 1;
    let table = u64::from(l.table)..table_end(l);
    let landings = u64::from(l.landings)..landings_end(l);
    apart(&cell, &sandbox)
        & apart(&cell, &table)
        & apart(&sandbox, &table)
        & apart(&cell, &landings)
        & apart(&sandbox, &landings)
        & apart(&table, &landings)
}

#[tactic(auto, unfolding(spec::specs::Layouts::right_layout))]
pub fn layout_right(l: Layout) -> bool
    ensures { result ≡ right_layout l }
{
    in_range(l) & (box_right(l) & (in_memory(l) & disjoint(l)))
}

// Whether a layout is right and memory has its length. Otherwise the call is refused as bad layout (7).
pub fn fits(l: Layout, cells: usize) -> bool
    ensures { result ≡ fits_cells l cells }
{
    layout_right(l) & (cells == l.size as usize)
}

// The address from low to high that e is masked to. The same mask serves the sandbox and the code.
pub fn mask(e: u32, low: u32, high: u32) -> u32
    ensures { result ≡ mask_of low high e }
{
    (e & high) | low
}

// How many low bits of an address the mask keeps: the sandbox has 2^width cells.
pub fn width(l: Layout) -> u32
    ensures { result ≡ width_of l }
{
    (u64::from(l.high.saturating_sub(l.low)) + 1).trailing_zeros()
}
