// `hemdroas_rewrite` and `hemdroas_check`: turn words into commands, and check commands.
ghost use Rattle.std.specs.Prelude.{◌≡◌, length};
ghost use Rattle.spec.specs.Bundles.{rewrite_answer, rewrite_output};
ghost use Rattle.capi_spec.specs.Numbers.{layout_from, answer_to};
ghost use Rattle.capi_spec.specs.Hosts.{check_for};

use capi_values::answers::{ANSWER, answer_of};
use capi_values::layouts::{LAYOUT, layout_of};
use types::Answer;

#[unsafe(no_mangle)]
pub extern "C" fn hemdroas_rewrite(
    layout: &[u32; LAYOUT],
    words: &[u64],
    commands: &mut [u64],
    answer: &mut [u32; ANSWER],
)
    ensures answer { answer.new ≡ answer_to (rewrite_answer (layout_from layout.now) words.now
        (length commands.old)) }
    ensures content { commands.new ≡ rewrite_output (layout_from layout.now) words.now commands.old }
{
    *answer = answer_of(Answer::from(rewriter::rewrite(layout_of(layout), words, commands)));
}

#[unsafe(no_mangle)]
pub extern "C" fn hemdroas_check(
    layout: &[u32; LAYOUT],
    commands: &[u64],
    answer: &mut [u32; ANSWER],
)
    ensures { answer.new ≡ check_for layout.now commands.now }
{
    *answer = answer_of(Answer::from(checker::check(layout_of(layout), commands)));
}
