// Decodes one instruction. It tries the fast path first, and the full path if that gives no answer.
ghost use Rattle.std.specs.Prelude.{◌≡◌};
ghost use Rattle.types.specs.Results.{decoded_of};
ghost use Rattle.spec.specs.Bytes.{decode_one};

use crate::fast_path::read_fast;
use crate::full_path::read_full;
use types::Refusal;

// Decodes the instruction at the front of s: its word and its length in bytes, or its refusal.
pub fn read_one(s: &[u8]) -> Result<(u64, usize), Refusal>
    ensures { decoded_of result ≡ decode_one s.now }
{
    match read_fast(s) {
        Some(decoded) => Ok(decoded),
        None => read_full(s),
    }
}
