// Two's complement on 32-bit numbers: arithmetic shift right, and signed comparison.
ghost use Rattle.std.specs.Prelude.{◌≡◌};
ghost use Rattle.spec.specs.Signed.{sar_of, less_of};

use types::Layout;

// A shift by more than 31 gives the same as a shift by 31: only the sign is left.
#[tactic(auto, using(crate::proofs::signed::Signs::shifted))]
pub fn sar(x: u32, v: u32) -> u32
    ensures { result ≡ sar_of x v }
{
    (x.cast_signed() >> v.min(Layout::CELL_BITS - 1)).cast_unsigned()
}

pub fn less(x: u32, y: u32) -> bool
    ensures { result ≡ less_of x y }
{
    x.cast_signed() < y.cast_signed()
}
