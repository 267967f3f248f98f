// `hemdroas_forward` and `hemdroas_check_forward`: check that words or commands are a routine that always finishes.
ghost use Rattle.std.specs.Prelude.{◌≡◌};
ghost use Rattle.capi_spec.specs.Numbers.{layout_from, answer_to};
ghost use Rattle.forward_spec.specs.Forward.{forward_answer, check_forward_answer};

use capi_values::answers::{ANSWER, answer_of};
use capi_values::layouts::{LAYOUT, layout_of};
use types::Answer;

#[unsafe(no_mangle)]
pub extern "C" fn hemdroas_forward(words: &[u64], answer: &mut [u32; ANSWER])
    ensures { answer.new ≡ answer_to (forward_answer words.now) }
{
    *answer = answer_of(Answer::from(forward::forward(words)));
}

#[unsafe(no_mangle)]
pub extern "C" fn hemdroas_check_forward(
    layout: &[u32; LAYOUT],
    commands: &[u64],
    answer: &mut [u32; ANSWER],
)
    ensures { answer.new ≡ answer_to (check_forward_answer (layout_from layout.now) commands.now) }
{
    *answer = answer_of(Answer::from(forward::list::check_forward(layout_of(layout), commands)));
}
