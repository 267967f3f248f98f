// Tests whether four words are a bundle of one of the known shapes.
ghost use Rattle.std.specs.Prelude.{◌≡◌};
ghost use Rattle.checker.specs.Fours.{on_four};
ghost use Rattle.checker.specs.shapes.FourWords.{passes_of};

use crate::event::is_event;
use crate::extent::Extent;
use crate::indirect_jump::is_gox;
use crate::masked_access::is_access;
use crate::single::{is_goif, is_halt, is_plain};
use types::{Bundle, Command};
use words::field;

// Whether four words are a bundle, by the kind of the first. The last one, with no `more` after it, must be HALT. Most are plain, so that is tested first.
#[tactic(auto, using(crate::proofs::shapes::Passing::last_is, crate::proofs::shapes::Passing::pass_halt, crate::proofs::shapes::Passing::pass_plain, crate::proofs::shapes::Passing::pass_access, crate::proofs::shapes::Passing::pass_gox, crate::proofs::shapes::Passing::pass_goif, crate::proofs::shapes::Passing::pass_event, crate::proofs::shapes::Passing::pass_none))]
pub fn passes_words(list: Extent, words: &[u64; Bundle::LENGTH], more: bool) -> bool
    ensures { result ≡ on_four (λ w x y z. passes_of list.layout list.bundles w x y z more) words.now }
{
    if !more {
        return is_halt(words);
    }
    let kind = field::kind(words[0]);
    if (Command::SET <= kind) & (kind <= Command::SAR) {
        return is_plain(words);
    }
    match kind {
        Command::HALT => is_halt(words),
        Command::ANDI => is_access(list.layout, words),
        Command::SHL => is_gox(list, words),
        Command::GOIF => is_goif(list.layout, list.bundles, words),
        Command::LOOK => is_event(words),
        _ => false,
    }
}
