// The fields of a fetched word, and the values of the registers that they name.
ghost use Rattle.std.specs.Prelude.{◌≡◌, ◌<◌, get_or};
ghost use Rattle.types.specs.Names.{guest_registers};
ghost use Rattle.spec.specs.Layouts.{mask_of};
ghost use Rattle.spec.specs.Words.{d_of, a_of, b_of, v_of};
ghost use Rattle.engine_step.specs.fetch.Fetched.{GuestFields};

use engine_spec::Engine;
use machine_step::registers::{a_value, b_value};
use types::Layout;
use words::fields::v_field;
use words::{field, memory};

// The masked address of a LOAD or STORE from low to high, of any word whose register a is one of the guest.
pub fn address(w: u64, low: u32, high: u32, regs: &[u32; Engine::REGISTERS]) -> usize
    requires { a_of w < guest_registers }
    ensures { result ≡ mask_of low high (get_or regs.now (a_of w) 0) }
{
    memory::mask(a_value(w, regs), low, high) as usize
}

// A guest word whose kind is an instruction's and whose register fields name registers of the guest.
#[derive(Clone, Copy)]
pub struct GuestWord {
    pub word: u64,
    ghost fields: { GuestFields word },
}

impl GuestWord {
    pub fn d(self) -> usize
        ensures { result ≡ d_of self.word }
    {
        field::d(self.word) as usize
    }

    pub fn v(self) -> u32
        ensures { result ≡ v_of self.word }
    {
        v_field(self.word)
    }

    // The value of register a.
    pub fn a(self, regs: &[u32; Engine::REGISTERS]) -> u32
        ensures { result ≡ get_or regs.now (a_of self.word) 0 }
    {
        a_value(self.word, regs)
    }

    // The value of register b.
    pub fn b(self, regs: &[u32; Engine::REGISTERS]) -> u32
        ensures { result ≡ get_or regs.now (b_of self.word) 0 }
    {
        b_value(self.word, regs)
    }

    // The masked address of a LOAD or STORE.
    pub fn address(self, layout: &Layout, regs: &[u32; Engine::REGISTERS]) -> usize
        ensures { result ≡ mask_of layout.now.low layout.now.high (get_or regs.now (a_of self.word) 0) }
    {
        address(self.word, layout.low, layout.high, regs)
    }
}
