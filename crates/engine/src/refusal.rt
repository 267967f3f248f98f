// Decides whether a run of the engine is refused, before its first instruction.
ghost use Rattle.std.specs.Prelude.{◌≡◌};
ghost use Rattle.types.specs.Results.{verdict_of};
ghost use Rattle.engine_spec.specs.Engines.{refusal_by};
ghost use Rattle.engine_spec.specs.Continues.{continue_refusal};

use types::{Instr, Layout, Refusal, Reject};
use words::memory::fits;
use words::routine::first_refusal;

// Refused as bad layout (7), then as oversize (5). No word is judged.
#[tactic(auto, using(crate::proofs::refusal::RefusalLaws::bad_layout, crate::proofs::refusal::RefusalLaws::oversize, crate::proofs::refusal::RefusalLaws::sizes_taken))]
pub fn continue_refusal(layout: Layout, words: &[u64], cells: usize) -> Result<(), Reject>
    ensures { verdict_of result ≡ continue_refusal layout words.now cells }
{
    if !fits(layout, cells) {
        return Err(Reject::from(Refusal::BadLayout));
    }
    if words.len() > Instr::MOST {
        return Err(Reject::from(Refusal::Oversize));
    }
    Ok(())
}

// The same, but then all words are judged. The first bad word is refused, at its place.
#[tactic(auto, using(crate::proofs::refusal::RefusalLaws::words_judged, crate::proofs::refusal::RefusalLaws::sizes_refused))]
pub fn run_refusal(layout: Layout, words: &[u64], cells: usize) -> Result<(), Reject>
    ensures { verdict_of result ≡ refusal_by layout words.now cells }
{
    continue_refusal(layout, words, cells)?;
    first_refusal(words)
}
