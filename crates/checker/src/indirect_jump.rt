// Tests the shape of GOX, which masks its target in the hidden register.
ghost use Rattle.std.specs.Prelude.{◌≡◌};
ghost use Rattle.checker.specs.Fours.{on_four};
ghost use Rattle.checker.specs.indirect_jump.IndirectJump.{gox_words};

use crate::extent::Extent;
use crate::word::is_word;
use types::{Bundle, Command};
use words::field;
use words::fields::HIDDEN;
use words::refusals::TOP_CONDITION;

// Whether four words are a GOX whose mask keeps the target within the list.
#[tactic(auto, using(crate::proofs::indirect_jump::Laws::gox_is))]
pub fn is_gox(list: Extent, words: &[u64; Bundle::LENGTH]) -> bool
    ensures { result ≡ on_four (gox_words list.layout list.bundles) words.now }
{
    let [w, x, y, z] = *words;
    let d = field::a(w);
    let a = field::a(z);
    let b = field::b(z);
    let c = field::c(z);
    let last = list.end() - 1;
    (d < HIDDEN)
        & (a < HIDDEN)
        & (b < HIDDEN)
        & (c <= TOP_CONDITION)
        & is_word(w, Command::SHL, HIDDEN, d, 0, 0, Bundle::SHIFT)
        & is_word(x, Command::ANDI, HIDDEN, HIDDEN, 0, 0, last)
        & is_word(
            y,
            Command::ORI,
            HIDDEN,
            HIDDEN,
            0,
            0,
            u64::from(list.layout.base),
        )
        & is_word(z, Command::GOXR, HIDDEN, a, b, c, 0)
}
