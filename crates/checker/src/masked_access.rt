// Tests the shapes of LOAD and STORE, which mask their address in the hidden register.
ghost use Rattle.std.specs.Prelude.{◌≡◌};
ghost use Rattle.checker.specs.Fours.{on_four};
ghost use Rattle.checker.specs.masked_access.MaskedAccess.{mask_words, load_word, store_word, access_words};

use crate::word::is_word;
use types::{Bundle, Command, Layout};
use words::command::NOP_WORD;
use words::field;
use words::fields::HIDDEN;

// Whether the first two words mask a guest register's address into the hidden register.
fn is_mask(l: Layout, w: u64, x: u64) -> bool
    ensures { result ≡ mask_words l w x }
{
    let a = field::a(w);
    (a < HIDDEN)
        & is_word(w, Command::ANDI, HIDDEN, a, 0, 0, u64::from(l.high))
        & is_word(x, Command::ORI, HIDDEN, HIDDEN, 0, 0, u64::from(l.low))
}

fn is_load(y: u64) -> bool
    ensures { result ≡ load_word y }
{
    let to = field::d(y);
    (to < HIDDEN) & is_word(y, Command::LOAD, to, HIDDEN, 0, 0, 0)
}

fn is_store(y: u64) -> bool
    ensures { result ≡ store_word y }
{
    let from = field::b(y);
    (from < HIDDEN) & is_word(y, Command::STORE, 0, HIDDEN, from, 0, 0)
}

// Whether four words are a LOAD or a STORE.
#[tactic(auto, using(crate::proofs::masked_access::Laws::by_load, crate::proofs::masked_access::Laws::by_store))]
pub fn is_access(l: Layout, words: &[u64; Bundle::LENGTH]) -> bool
    ensures { result ≡ on_four (access_words l) words.now }
{
    let [w, x, y, z] = *words;
    let masked = is_mask(l, w, x);
    if field::kind(y) == Command::LOAD {
        return masked & is_load(y) & (z == NOP_WORD);
    }
    masked & is_store(y) & (z == NOP_WORD)
}
