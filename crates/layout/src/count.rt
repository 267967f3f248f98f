// Computes how many bundles a routine needs, and tests the length and the base address of a command list.
ghost use Rattle.std.specs.Prelude.{◌≡◌};
ghost use Rattle.spec.specs.Words.{bundles_for};
ghost use Rattle.spec.specs.Bundles.{count_right, base_right};

use types::{Bundle, Layout};

// The number of bundles for n instructions: the smallest power of two above n.
#[tactic(auto, using(crate::proofs::count::Counts::next_power))]
pub fn bundles(n: u32) -> usize
    ensures { result ≡ bundles_for n }
{
    (n as usize + 1).next_power_of_two()
}

// Whether k commands are N bundles, where N is a power of two from 1 to 1,024.
pub fn count_right(k: usize) -> bool
    ensures { result ≡ count_right k }
{
    (k <= Bundle::MOST_COMMANDS)
        & k.is_multiple_of(Bundle::LENGTH)
        & ((k / Bundle::LENGTH).count_ones() == 1)
}

// Whether the base is a multiple of the length of n bundles. For n = 0, or n above the base, only base 0 is. A list's n is a power of two, and
// then nothing is divided: some processors have no instruction for it.
#[tactic(auto, using(crate::proofs::count::Counts::below, crate::proofs::count::Counts::masked))]
pub fn base_right(l: Layout, n: usize) -> bool
    ensures { result ≡ base_right l n }
{
    let base = l.base as usize;
    if base < n {
        return base == 0; // the product could wrap
    }
    let length = Bundle::LENGTH * n;
    if n.count_ones() == 1 {
        base & (length - 1) == 0
    } else {
        base.is_multiple_of(length)
    }
}
