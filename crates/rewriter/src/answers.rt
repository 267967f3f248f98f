// Decides the answer of rewriting before anything is written.
ghost use Rattle.std.specs.Prelude.{◌≡◌, ◌≤◌};
ghost use Rattle.types.specs.Names.{most_instructions};
ghost use Rattle.types.specs.Results.{answer_of};
ghost use Rattle.spec.specs.Bundles.{base_room_answer, rewrite_answer};

use types::{Bundle, Instr, Layout, Refusal, Reject};
use words::count::{base_right, bundles};
use words::memory::layout_right;
use words::routine::first_refusal;

// The answer for n valid words: bad base (13), then small hopper (9), else how many commands they become.
#[tactic(auto, using(crate::proofs::answers::RefusalLaws::length_fits, crate::proofs::answers::RefusalLaws::place_base, crate::proofs::answers::RefusalLaws::place_small, crate::proofs::answers::RefusalLaws::place_taken))]
pub fn base_room_answer(layout: Layout, n: usize, room: usize) -> Result<usize, Reject>
    requires { n ≤ most_instructions }
    ensures { answer_of result ≡ base_room_answer layout n room }
{
    let bundles = bundles(n as u32);
    let length = Bundle::LENGTH * bundles;
    if !base_right(layout, bundles) {
        return Err(Reject::from(Refusal::BadBase));
    }
    if room < length {
        return Err(Reject::from(Refusal::SmallOutput));
    }
    Ok(length)
}

// The whole answer: layout, count, the words in order, then base and room.
#[tactic(auto, using(crate::proofs::answers::RefusalLaws::bad_layout, crate::proofs::answers::RefusalLaws::oversize, crate::proofs::answers::RefusalLaws::bad_word, crate::proofs::answers::RefusalLaws::good_words))]
pub fn rewrite_answer(layout: Layout, words: &[u64], room: usize) -> Result<usize, Reject>
    ensures { answer_of result ≡ rewrite_answer layout words.now room }
{
    if !layout_right(layout) {
        return Err(Reject::from(Refusal::BadLayout));
    }
    if words.len() > Instr::MOST {
        return Err(Reject::from(Refusal::Oversize));
    }
    first_refusal(words)?;
    base_room_answer(layout, words.len(), room)
}
