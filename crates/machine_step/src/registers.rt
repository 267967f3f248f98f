// The values of the registers that a word's fields name. The machine has sixteen registers, the engine fifteen.
ghost use Rattle.std.specs.Prelude.{◌≡◌, ◌<◌, slice_index};
ghost use Rattle.spec.specs.Words.{a_of, b_of};

use words::field;

pub fn a_value<const N: usize>(w: u64, regs: &[u32; N]) -> u32
    requires { a_of w < N }
    ensures { result ≡ slice_index regs.now (a_of w) }
{
    regs[field::a(w) as usize]
}

pub fn b_value<const N: usize>(w: u64, regs: &[u32; N]) -> u32
    requires { b_of w < N }
    ensures { result ≡ slice_index regs.now (b_of w) }
{
    regs[field::b(w) as usize]
}
