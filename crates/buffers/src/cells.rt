// Reads or sets one element of a slice without a bounds failure.
ghost use Rattle.std.specs.Prelude.{◌≡◌, get_or, set};

// Reads a cell, or 0 past the end.
pub fn peek(cells: &[u32], at: usize) -> u32
    ensures { result ≡ get_or cells.now at 0 }
{
    cells.get(at).copied().unwrap_or(0)
}

// Sets an element; past the end it does nothing.
pub fn poke<T: Copy>(cells: &mut [T], at: usize, x: T)
    ensures { cells.new ≡ set cells.old at x }
{
    if at < cells.len() {
        cells[at] = x;
    }
}
