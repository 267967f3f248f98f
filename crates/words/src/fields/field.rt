// Extracts one field of a word. The kind is in bits 0 to 7; d begins at bit 8, a at 12, b at 16, c at 20, the zero bits at 24, v at 32.
ghost use Rattle.std.specs.Prelude.{◌≡◌, ◌/◌, ◌%◌, ◌^◌, ◌<◌};
ghost use Rattle.spec.specs.Words.{kind_of, d_of, a_of, b_of, c_of, zero_of, v_of};

// The lowest bit of each field above the kind.
pub const AT_D: u64 = 8;

pub const AT_A: u64 = 12;

pub const AT_B: u64 = 16;

pub const AT_C: u64 = 20;

const AT_ZERO: u64 = 24;

pub const AT_V: u64 = 32;

// How many values a field can have: the kind or the zero bits; a register or the condition; v.
pub const BYTE: u64 = 0x100;

pub const FOUR_BITS: u64 = 0x10;

pub const NUMBER: u64 = 0x1_0000_0000;

// The four bits of a word from bit `at` on.
fn four_bits(w: u64, at: u64) -> u64
    requires { at < 64 }
    ensures { result ≡ w / 2 ^ at % 2 ^ 4 }
{
    (w >> at) % FOUR_BITS
}

pub fn kind(w: u64) -> u64
    ensures { result ≡ kind_of w }
{
    w % BYTE
}

pub fn d(w: u64) -> u64
    ensures { result ≡ d_of w }
{
    four_bits(w, AT_D)
}

pub fn a(w: u64) -> u64
    ensures { result ≡ a_of w }
{
    four_bits(w, AT_A)
}

pub fn b(w: u64) -> u64
    ensures { result ≡ b_of w }
{
    four_bits(w, AT_B)
}

pub fn c(w: u64) -> u64
    ensures { result ≡ c_of w }
{
    four_bits(w, AT_C)
}

pub fn zero(w: u64) -> u64
    ensures { result ≡ zero_of w }
{
    (w >> AT_ZERO) % BYTE
}

pub fn v(w: u64) -> u64
    ensures { result ≡ v_of w }
{
    w >> AT_V
}
