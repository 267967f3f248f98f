// Decides in one pass what reading and rewriting a routine's bytes answers. It keeps no word and writes nothing.
ghost use Rattle.std.specs.Prelude.{◌≡◌, ◌≤◌, ◌<◌, unwrap_or, IfSome};
ghost use Rattle.types.specs.Names.{most_instructions};
ghost use Rattle.types.specs.Results.{answer_of};
ghost use Rattle.sandbox_spec.specs.Loading.{translate_answer};
ghost use Rattle.sandbox.specs.answers.Answers.{landings_answer};

use codec_read::{count, scan};
use rewriter::answers::base_room_answer;
use types::{Instr, Layout, Refusal, Reject};
use words::memory::layout_right;

// What rewriting answers for n instructions that were read: bad layout (7), bad landing (8), bad base (13), small hopper (9), else success.
// `past` is the index of the first GOIF that jumps past the end.
#[tactic(auto, using(crate::proofs::answers::Laws::bad_layout, crate::proofs::answers::Laws::bad_landing_lem, crate::proofs::answers::Laws::based))]
fn landings_answer(
    layout: Layout,
    n: usize,
    past: Option<usize>,
    room: usize,
) -> Result<usize, Reject>
    requires { (n ≤ most_instructions) × IfSome past (λ i. i < n) }
    ensures { answer_of result ≡ landings_answer layout n (unwrap_or past n) room }
{
    if !layout_right(layout) {
        return Err(Reject::from(Refusal::BadLayout));
    }
    if let Some(i) = past {
        return Err(Reject::at(Refusal::BadLanding, i));
    }
    base_room_answer(layout, n, room)
}

// What reading, rewriting and checking answer for `room` commands. The checker passes all that the rewriter writes, so it is not asked here.
#[tactic(auto, using(crate::proofs::answers::Laws::too_short, crate::proofs::answers::Laws::too_many, crate::proofs::answers::Laws::refused_read, crate::proofs::answers::Laws::judged))]
pub fn translate_answer(layout: Layout, bytes: &[u8], room: usize) -> Result<usize, Reject>
    ensures { answer_of result ≡ translate_answer layout bytes.now room }
{
    if bytes.len() < Instr::COUNT_BYTES {
        return Err(Reject::from(Refusal::Short));
    }
    let n = count(bytes);
    if n > Instr::MOST {
        return Err(Reject::from(Refusal::Oversize));
    }
    let scanned = scan(&bytes[Instr::COUNT_BYTES..], n, &mut []);
    scanned.read?;
    landings_answer(layout, n, scanned.past, room)
}
