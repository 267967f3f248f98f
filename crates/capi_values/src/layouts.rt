// Turns a C host's array of numbers into a layout.
ghost use Rattle.std.specs.Prelude.{◌≡◌, ◌+◌, length};
ghost use Rattle.types.specs.Names.{orders};
ghost use Rattle.capi_spec.specs.Numbers.{numbers_from, layout_from};

use buffers::stores::store;
use types::Layout;

// Where the ceilings begin in a layout's numbers, and how many numbers there are.
const LAYOUT_CEILINGS: usize = 8;

pub const LAYOUT: usize = LAYOUT_CEILINGS + Layout::CEILINGS;

// The ceilings of the orders, from index `at` on.
pub fn ceilings_from(xs: &[u32], at: usize) -> [u32; Layout::CEILINGS]
    requires { length xs.now ≡ at + orders }
    ensures { result ≡ numbers_from orders at xs.now }
{
    let mut ceilings = [0u32; Layout::CEILINGS];
    store(&mut ceilings, 0, &xs[at..]);
    ceilings
}

pub fn layout_of(xs: &[u32; LAYOUT]) -> Layout
    ensures { result ≡ layout_from xs.now }
{
    let low = xs[1];
    let base = xs[6];
    let ceilings = ceilings_from(xs, LAYOUT_CEILINGS);
    Layout::new(
        xs[0], low, xs[2], xs[3], xs[4], xs[5], base, xs[7], ceilings,
    )
}
