// Checks that a command list is forward, so that it always finishes.
ghost use Rattle.std.specs.Prelude.{◌≡◌, ◌/◌, length};
ghost use Rattle.types.specs.Names.{bundle_length};
ghost use Rattle.types.specs.Results.{verdict_of};
ghost use Rattle.spec.specs.Bundles.{bundle_at};
ghost use Rattle.forward_spec.specs.Forward.{forward_word, forward_from, check_forward_answer};

use checker::check;
use types::{Bundle, Command, Layout, Refusal, Reject};
use words::command::BUNDLE_LENGTH;
use words::field;

// Whether bundle h is forward. Its first word is enough: only GOX begins with a shift.
#[tactic(auto, using(crate::proofs::list::Scan::word_other, crate::proofs::list::Scan::word_below, crate::proofs::list::Scan::word_jump))]
fn forward_word(l: Layout, h: usize, w: u64) -> bool
    ensures { result ≡ forward_word l h w }
{
    let kind = field::kind(w);
    let to = field::v(w);
    let base = u64::from(l.base);
    if kind != Command::GOIF {
        return kind != Command::SHL;
    }
    base <= to && (h as u64) < (to - base) / BUNDLE_LENGTH
}

// Refuses the first bundle that is not forward (18).
#[tactic(auto, using(crate::proofs::list::Scan::bundle_stop, crate::proofs::list::Scan::bundle_more, crate::proofs::list::Scan::bundle_done))]
fn scan_bundles(l: Layout, commands: &[u64]) -> Result<(), Reject>
    ensures { verdict_of result ≡ forward_from (bundle_at l commands.now) 0 (length commands.now / bundle_length) }
{
    let (bundles, _) = commands.as_chunks::<{ Bundle::LENGTH }>();
    for (h, words) in bundles.iter().enumerate() {
        if !forward_word(l, h, words[0]) {
            return Err(Reject::at(Refusal::NotForward, h));
        }
    }
    Ok(())
}

// Checks a command list: all the checker's refusals, then not forward (18).
#[tactic(auto, using(crate::proofs::list::Scan::bad_list, crate::proofs::list::Scan::good_list))]
pub fn check_forward(layout: Layout, commands: &[u64]) -> Result<(), Reject>
    ensures { verdict_of result ≡ check_forward_answer layout commands.now }
{
    check(layout, commands)?;
    scan_bundles(layout, commands)
}
