// Checks a command list, whoever wrote it: each bundle must have a shape that the rewriter could have written, and the last must be HALT.
#![tactic(auto)]

pub mod event;
pub mod extent;
pub mod indirect_jump;
pub mod masked_access;
pub mod shapes;
pub mod single;
pub mod word;

ghost use Rattle.std.specs.Prelude.{◌≡◌, ◌/◌, length};
ghost use Rattle.types.specs.Names.{bundle_length};
ghost use Rattle.types.specs.Results.{verdict_of};
ghost use Rattle.spec.specs.Bundles.{check_from, check_answer};

use crate::extent::Extent;
use crate::shapes::passes_words;
use types::{Bundle, Layout, Refusal, Reject};
use words::count::{base_right, count_right};
use words::memory::layout_right;

// Refuses the first bundle of the list that does not pass as bad bundle (11).
#[tactic(auto, using(crate::proofs::Passing::check_stop, crate::proofs::Passing::check_more, crate::proofs::Passing::check_done))]
fn check_bundles(list: Extent, commands: &[u64]) -> Result<(), Reject>
    requires { list.bundles ≡ length commands.now / bundle_length }
    ensures { verdict_of result ≡ check_from list.layout list.bundles commands.now 0 list.bundles }
{
    let (bundles, _) = commands.as_chunks();
    for (h, words) in bundles.iter().enumerate() {
        if !passes_words(list, words, h + 1 < list.bundles) {
            return Err(Reject::at(Refusal::BadBundle, h));
        }
    }
    Ok(())
}

#[tactic(auto, using(crate::proofs::Passing::bad_layout, crate::proofs::Passing::bad_count, crate::proofs::Passing::bad_base, crate::proofs::Passing::count_some, crate::proofs::Passing::base_room, crate::proofs::Passing::checked))]
pub fn check(layout: Layout, commands: &[u64]) -> Result<(), Reject>
    ensures { verdict_of result ≡ check_answer layout commands.now }
{
    if !layout_right(layout) {
        return Err(Reject::from(Refusal::BadLayout));
    }
    let bundles = commands.len() / Bundle::LENGTH;
    if !count_right(commands.len()) {
        return Err(Reject::from(Refusal::BadCount));
    }
    if !base_right(layout, bundles) {
        return Err(Reject::from(Refusal::BadBase));
    }
    check_bundles(Extent { layout, bundles }, commands)
}
