// Computes an instruction's map byte, which marks the nonzero fields. Reading and writing share it.
ghost use Rattle.std.specs.Prelude.{◌≡◌, ◌+◌, ◌*◌, ◌<◌};
ghost use Rattle.std.specs.Int.{bit_at};
ghost use Rattle.spec.specs.Bytes.{bit_of, map_of, size_of};

use types::Fields;

// The largest map byte: all six fields.
pub const TOP_MAP: usize = 63;

// The bits of the six fields. All but v have one byte.
pub(crate) const KIND: u32 = 0;

pub(crate) const D: u32 = 1;

pub(crate) const A: u32 = 2;

pub(crate) const B: u32 = 3;

pub(crate) const C: u32 = 4;

pub(crate) const V: u32 = 5;

const ONE_BYTE: usize = (1 << V) - 1;

// A bit of a map: 1 if its field is present, else 0.
#[tactic(auto, using(std::proofs::lemmas::Nat::Bits::shr_and_one))]
pub(crate) fn bit(m: usize, field: u32) -> usize
    requires { field < 64 }
    ensures { result ≡ bit_at m field }
{
    (m >> field) & 1
}

// The bit of a field's value: 1 if it is not 0, else 0.
pub fn bit_of(x: u64) -> usize
    ensures { result ≡ bit_of x }
{
    usize::from(x != 0)
}

// The map that marks the nonzero fields.
pub fn map_of(f: Fields) -> usize
    ensures { result ≡ map_of f }
{
    bit_of(f.kind)
        + (bit_of(f.d) << D)
        + (bit_of(f.a) << A)
        + (bit_of(f.b) << B)
        + (bit_of(f.c) << C)
        + (bit_of(f.v) << V)
}

// How many bytes an instruction with map m takes: the map, one for each field, four for v.
#[tactic(auto, using(crate::proofs::map::Sizes::counted_size))]
pub fn size_of(m: usize) -> usize
    requires { m < 64 }
    ensures { result ≡ size_of m }
{
    1 + (m & ONE_BYTE).count_ones() as usize + 4 * (m >> V)
}
