// `hemdroas_word_right`: tests four bytes of a policy's table as one word.
ghost use Rattle.std.specs.Prelude.{◌≡◌};
ghost use Rattle.installer.specs.table_words.Words.{word_right};
ghost use Rattle.capi.specs.table_words.Hosts.{yes_or_no};

// Returns 1 for yes and 0 for no.
#[unsafe(no_mangle)]
pub extern "C" fn hemdroas_word_right(states: u32, word: u32) -> u32
    ensures { result ≡ yes_or_no (word_right states word) }
{
    u32::from(installer::word_right(states, word))
}
