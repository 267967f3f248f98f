// Finds the first refusal of a guest word, looked at alone.
ghost use Rattle.std.specs.Prelude.{◌≡◌, ◌≤◌, eqb};
ghost use Rattle.types.specs.Names.{top_kind};
ghost use Rattle.types.specs.Results.{refusal_number};
ghost use Rattle.spec.specs.Words.{guest_limits, word_refusal};
ghost use Rattle.words.specs.fields.Strays.{stray_of};

use crate::fields::{field, fields, only_guest_registers};
use crate::refusals::{TOP_KIND, fields_refusal};
use crate::reserved;
use types::{Instr, Refusal};

// The bits that must be 0 in every instruction of a kind: fields that the kind lacks, bits above the bounds of c and v, and bits 24 to 31.
fn stray_bits(k: u64) -> u64
    requires { k ≤ top_kind }
    ensures { result ≡ stray_of (guest_limits k) }
{
    match k {
        Instr::KIND_HALT => reserved::WITH_NOTHING,
        Instr::KIND_SET => reserved::WITH_D_V,
        Instr::KIND_MOVE => reserved::WITH_D_A,
        Instr::KIND_ADD => reserved::WITH_D_A_B,
        Instr::KIND_SUB => reserved::WITH_D_A_B,
        Instr::KIND_AND => reserved::WITH_D_A_B,
        Instr::KIND_OR => reserved::WITH_D_A_B,
        Instr::KIND_SAR => reserved::WITH_D_A_SHIFT,
        Instr::KIND_LOAD => reserved::WITH_D_A,
        Instr::KIND_STORE => reserved::WITH_A_B,
        Instr::KIND_GOIF => reserved::WITH_A_B_C_V,
        Instr::KIND_GOX => reserved::WITH_D_A_B_C,
        Instr::KIND_EVENT => reserved::WITH_EVENT,
        _ => 0,
    }
}

// Whether a word is an instruction: no stray bit, and no hidden register. A register field that the kind lacks is 0, so it passes.
pub fn is_instruction(w: u64) -> bool
    ensures { result ≡ eqb (word_refusal w) 0 }
{
    let k = field::kind(w);
    if k > TOP_KIND {
        return false;
    }
    (w & stray_bits(k) == 0) & only_guest_registers(w)
}

// The first refusal of a word that is no instruction. It is a function of its own because it is seldom needed.
#[tactic(auto, using(crate::proofs::guest::RefusalLaws::word_refusal_lem))]
pub fn refusal_by_fields(w: u64) -> Result<(), Refusal>
    ensures { refusal_number result ≡ word_refusal w }
{
    fields_refusal(field::zero(w) > 0, fields(w))
}

#[tactic(auto, using(crate::proofs::guest::RefusalLaws::clean_judged))]
pub fn word_refusal(w: u64) -> Result<(), Refusal>
    ensures { refusal_number result ≡ word_refusal w }
{
    if is_instruction(w) {
        return Ok(());
    }
    refusal_by_fields(w)
}
