// Decodes any instruction, or finds its first refusal.
ghost use Rattle.std.specs.Prelude.{◌≡◌, ◌≤◌, ◌<◌, length};
ghost use Rattle.types.specs.Results.{decoded_of};
ghost use Rattle.spec.specs.Bytes.{size_of, fields_at, decode_fields, decode_one};

use crate::bytes::{byte, quad};
use crate::map::{A, B, C, D, KIND, TOP_MAP, V, bit, map_of, size_of};
use types::{Fields, Refusal};
use words::fields::pack;
use words::refusals::fields_refusal;

// Reads the fields that the map m announces.
#[tactic(auto, using(crate::proofs::full_path::Reading::fields_read))]
fn fields_of(s: &[u8], m: usize) -> Fields
    requires { (m < 64) × (size_of m ≤ length s.now) }
    ensures { result ≡ fields_at m s.now }
{
    let d_at = 1 + bit(m, KIND);
    let a_at = d_at + bit(m, D);
    let b_at = a_at + bit(m, A);
    let c_at = b_at + bit(m, B);
    let v_at = c_at + bit(m, C);
    Fields {
        kind: byte(s, 1, bit(m, KIND)),
        d: byte(s, d_at, bit(m, D)),
        a: byte(s, a_at, bit(m, A)),
        b: byte(s, b_at, bit(m, B)),
        c: byte(s, c_at, bit(m, C)),
        v: quad(s, v_at, bit(m, V)),
    }
}

// Refuses the fields, or packs them. The map must mark exactly the nonzero fields, so a present field that is 0 is foreign matter (2).
#[tactic(auto, using(crate::proofs::full_path::Reading::fields_good, crate::proofs::full_path::Reading::exit_decoded, spec::proofs::Bytes::fields_refused, types::proofs::Exits::refusal_counts))]
fn decode_fields(m: usize, size: usize, f: Fields) -> Result<(u64, usize), Refusal>
    requires { size ≡ size_of m }
    ensures { decoded_of result ≡ decode_fields m f }
{
    let foreign = m != map_of(f);
    fields_refusal(foreign, f)?;
    Ok((pack(f), size))
}

// Decodes the instruction at the front of s: its word and its length in bytes, or its refusal.
#[tactic(auto, using(spec::proofs::Bytes::one_none, spec::proofs::Bytes::one_large, spec::proofs::Bytes::one_short, spec::proofs::Bytes::one_fields))]
pub fn read_full(s: &[u8]) -> Result<(u64, usize), Refusal>
    ensures { decoded_of result ≡ decode_one s.now }
{
    if s.is_empty() {
        return Err(Refusal::Short);
    }
    let m = usize::from(s[0]);
    if m > TOP_MAP {
        return Err(Refusal::Foreign);
    }
    let size = size_of(m);
    if s.len() < size {
        return Err(Refusal::Short);
    }
    decode_fields(m, size, fields_of(s, m))
}
