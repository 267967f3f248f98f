// Adds, subtracts, combines and shifts 32-bit numbers, and tests the condition of a jump.
ghost use Rattle.std.specs.Prelude.{◌≡◌, bit_and, bit_or};
ghost use Rattle.spec.specs.Commands.{add_of, sub_of, shl_of, holds_of};

use crate::signed::less;
pub use crate::signed::sar;

pub fn add(x: u32, y: u32) -> u32
    ensures { result ≡ add_of x y }
{
    x.wrapping_add(y)
}

pub fn sub(x: u32, y: u32) -> u32
    ensures { result ≡ sub_of x y }
{
    x.wrapping_sub(y)
}

pub fn and(x: u32, y: u32) -> u32
    ensures { result ≡ bit_and x y }
{
    x & y
}

pub fn or(x: u32, y: u32) -> u32
    ensures { result ≡ bit_or x y }
{
    x | y
}

// Shifting by 32 or more leaves 0.
#[tactic(auto, using(crate::proofs::signed::Signs::all_lost))]
pub fn shl(x: u32, v: u32) -> u32
    ensures { result ≡ shl_of x v }
{
    x.unbounded_shl(v)
}

// Whether condition c holds of x and y. A number, the field of a word: an enum would be a match more, and takes more instructions at each jump.
pub fn holds(c: u64, x: u32, y: u32) -> bool
    ensures { result ≡ holds_of c x y }
{
    match c {
        0 => true,
        1 => x == y,
        2 => x < y,
        _ => less(x, y),
    }
}
