// Finds the first refusal among the words of a routine.
ghost use Rattle.std.specs.Prelude.{◌≡◌, length};
ghost use Rattle.types.specs.declared.Answer.{Answer};
ghost use Rattle.types.specs.Names.{or_else};
ghost use Rattle.types.specs.Results.{refusal_number, verdict_of};
ghost use Rattle.spec.specs.Words.{bad_landing, refusal_at, first_refused};

use crate::fields::field;
use crate::guest::{is_instruction, refusal_by_fields};
use types::{Instr, Refusal, Reject};

// Whether a word is a GOIF that jumps past n instructions.
pub fn bad_landing(n: usize, w: u64) -> bool
    ensures { result ≡ bad_landing n w }
{
    (field::kind(w) == Instr::KIND_GOIF) & ((n as u64) < field::v(w))
}

// The first refusal of a word among n instructions: those of the word alone, then bad landing (8).
#[tactic(auto, using(crate::proofs::routine::RefusalLaws::clean_at, crate::proofs::routine::RefusalLaws::at_refused, crate::proofs::routine::RefusalLaws::at_landing, crate::proofs::routine::RefusalLaws::at_taken, types::proofs::Exits::exit_refused, types::proofs::Exits::refusal_counts))]
pub fn refusal_at(n: usize, w: u64) -> Result<(), Refusal>
    ensures { refusal_number result ≡ refusal_at n w }
{
    let landing_bad = bad_landing(n, w);
    if is_instruction(w) & !landing_bad {
        return Ok(());
    }
    refusal_by_fields(w)?;
    if landing_bad {
        return Err(Refusal::BadLanding);
    }
    Ok(())
}

// The first refusal among the words, at its index.
pub fn first_refusal(words: &[u64]) -> Result<(), Reject>
    ensures { (z : Answer) → first_refused (refusal_at (length words.now)) words.now 0 z ≡ or_else (verdict_of result) z }
{
    for (i, w) in words.iter().enumerate() {
        if let Err(refusal) = refusal_at(words.len(), *w) {
            return Err(Reject::at(refusal, i));
        }
    }
    Ok(())
}
