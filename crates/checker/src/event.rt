// Tests the shape of EVENT, which asks the policy before it records.
ghost use Rattle.std.specs.Prelude.{◌≡◌};
ghost use Rattle.checker.specs.Fours.{on_four};
ghost use Rattle.checker.specs.event.Event.{event_words};

use crate::word::is_word;
use types::{Bundle, Command, PolicyNumbers};
use words::field;
use words::fields::HIDDEN;

// Whether four words are an event bundle: LOOK and EVENT must name the same event.
pub fn is_event(words: &[u64; Bundle::LENGTH]) -> bool
    ensures { result ≡ on_four event_words words.now }
{
    let [w, x, y, z] = *words;
    let e = field::v(w);
    (e < u64::from(PolicyNumbers::EVENTS))
        & is_word(w, Command::LOOK, HIDDEN, 0, 0, 0, e)
        & is_word(x, Command::STOPIF, HIDDEN, 0, 0, 0, 0)
        & is_word(y, Command::EVENT, 0, 0, 0, 0, e)
        & is_word(z, Command::KEEP, HIDDEN, 0, 0, 0, 0)
}
