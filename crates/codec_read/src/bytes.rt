// Reads a field from an instruction's bytes: one byte, or the four of field v.
ghost use Rattle.std.specs.Prelude.{◌≡◌, ◌+◌, ◌*◌, ◌≤◌, ◌<◌, length};
ghost use Rattle.spec.specs.Bytes.{byte_at, quad_at};

// `byte` and `quad` stay two functions: one over the width would loop over the bytes where these read one, or four at once.
// A field of one byte, or 0 if its map bit is 0.
#[tactic(auto, using(std::proofs::lemmas::Bool::Decides::nat_tests), unfolding(spec::specs::Bytes::byte_at))]
pub(crate) fn byte(s: &[u8], at: usize, bit: usize) -> u64
    requires { (bit ≤ 1) × (at + bit ≤ length s.now) }
    ensures { result ≡ byte_at bit s.now at }
{
    if bit == 0 { 0 } else { u64::from(s[at]) }
}

// The four bytes of v, low first. If its map bit is 0, the field is absent and its value 0.
#[tactic(auto, using(std::proofs::lemmas::Bool::Decides::nat_tests), unfolding(spec::specs::Bytes::quad_at))]
pub fn quad(s: &[u8], at: usize, bit: usize) -> u64
    requires { at + 4 * bit ≤ length s.now }
    ensures value { result ≡ quad_at bit s.now at }
    ensures range { result < 4294967296 }
{
    if bit == 0 {
        return 0;
    }
    u64::from(u32::from_le_bytes([s[at], s[at + 1], s[at + 2], s[at + 3]]))
}
