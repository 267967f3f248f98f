// Encodes one word as the bytes of its instruction.
ghost use Rattle.std.specs.Prelude.{◌≡◌, ◌+◌, ◌^◌, ◌≤◌, ◌<◌, length};
ghost use Rattle.std.proofs.lemmas.List.Edits.{sets as stores};
ghost use Rattle.spec.specs.Bytes.{byte_out, quad_out, encode_one};

use buffers::stores::store;
use codec_read::map::map_of;
use words::fields::fields;

// `bytes` and `at` stay two parameters, since the public `encode_word` takes and returns the index: a struct of both would live for one call of it.
// Writes a field of one byte, or nothing if it is 0. Returns the index after it.
#[tactic(auto, using(std::proofs::lemmas::Bool::Decides::nat_tests), unfolding(spec::specs::Bytes::byte_out))]
fn put_byte(bytes: &mut [u8], at: usize, x: u64) -> usize
    requires room { at + length (byte_out x) ≤ length bytes.old }
    requires small { x < 256 }
    ensures next { result ≡ at + length (byte_out x) }
    ensures content { bytes.new ≡ stores bytes.old at (byte_out x) }
{
    if x == 0 {
        return at;
    }
    bytes[at] = x as u8;
    at + 1
}

// Not one function with `put_byte`: a slice of eight bytes, cut to the width, would stand for what each writes here.
// Writes v in four bytes, low first, or nothing if it is 0. Returns the index after it.
#[tactic(auto, using(crate::proofs::encode::Fields::quad_bytes, spec::proofs::Bytes::quad_none, spec::proofs::Bytes::length_quad))]
fn put_quad(bytes: &mut [u8], at: usize, v: u64) -> usize
    requires room { at + length (quad_out v) ≤ length bytes.old }
    requires small { v < 2 ^ 32 }
    ensures next { result ≡ at + length (quad_out v) }
    ensures content { bytes.new ≡ stores bytes.old at (quad_out v) }
{
    if v == 0 {
        return at;
    }
    store(bytes, at, &(v as u32).to_le_bytes());
    at + 4
}

// Writes the bytes of a word from index `at` on. Returns the index after them.
#[tactic(auto, using(crate::proofs::encode::Fields::encoding))]
pub fn encode_word(bytes: &mut [u8], at: usize, w: u64) -> usize
    requires { at + length (encode_one w) ≤ length bytes.old }
    ensures next { result ≡ at + length (encode_one w) }
    ensures content { bytes.new ≡ stores bytes.old at (encode_one w) }
{
    let f = fields(w);
    bytes[at] = map_of(f) as u8;
    let mut next = at + 1;
    for x in [f.kind, f.d, f.a, f.b, f.c] {
        next = put_byte(bytes, next, x);
    }
    put_quad(bytes, next, f.v)
}
