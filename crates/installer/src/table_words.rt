// Tests four bytes of a policy's table as one word.
ghost use Rattle.std.specs.Prelude.{◌≡◌, ◌+◌, ◌≤◌, length, take, drop};
ghost use Rattle.spec.specs.Policies.{states_right};
ghost use Rattle.installer.specs.table_words.Words.{low_bytes, word_bytes, word_right};

use types::Layout;

// Constants with the same value in each of four bytes: 1, the low seven bits, the top bit.
const ONES: u32 = 0x0101_0101;

const LOWS: u32 = 0x7F7F_7F7F;

const TOPS: u32 = 0x8080_8080;

// Whether a state count is from 1 to 16.
pub fn states_right(states: u32) -> bool
    ensures { result ≡ states_right states }
{
    (1 <= states) & (states <= Layout::MOST_STATES)
}

// Whether S is from 1 to 16 and each of the four bytes is a state or no arrow (255). All four are tested at once.
// Adding 128 − S to the low seven bits sets the top bit if they are S or more. Adding 1 sets it if they are 127. No sum carries into the next byte.
// So the top bits of `over` mark the bytes that are no state, those of `full` the bytes that are 255.
#[tactic(auto, using(crate::proofs::table_words::Words::fit, crate::proofs::table_words::Words::states_wrong, crate::proofs::table_words::Words::together))]
pub fn word_right(states: u32, w: u32) -> bool
    ensures { result ≡ word_right states w }
{
    if !states_right(states) {
        return false;
    }
    let low = w & LOWS;
    let over = ((low + (128 - states) * ONES) | w) & TOPS;
    let full = (low + ONES) & w & TOPS;
    over == full
}

// Packs four bytes of a table, low first, into a word.
pub fn word_at(table: &[u8], at: usize) -> u32
    requires { at + word_bytes ≤ length table.now }
    ensures { low_bytes word_bytes result ≡ take word_bytes (drop at table.now) }
{
    u32::from_le_bytes([table[at], table[at + 1], table[at + 2], table[at + 3]])
}
