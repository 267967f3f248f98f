// Decodes a valid instruction if at least ten bytes are left from its map on. For any other it gives no answer, and the full path decides.
ghost use Rattle.std.specs.Prelude.{◌≡◌, ◌≢◌, ◌+◌, ◌^◌, ◌<◌, MatchOption, IfSome};
ghost use Rattle.types.specs.Results.{Word};
ghost use Rattle.spec.specs.Words.{pack_fields};
ghost use Rattle.spec.specs.Bytes.{decode_one};
ghost use Rattle.codec_read.specs.fast_path.Parts.{FieldsFit};

use crate::bytes::quad;
use crate::map::{A, B, C, D, KIND, TOP_MAP, V, bit};
use types::{Fields, Instr};
use words::field;
use words::guest::is_instruction;

// A field's value and the index after it, or None if it is present but 0. `read` gives the value of a present field.
fn part<F: Fn(usize) -> u64>(bit: usize, at: usize, size: usize, read: F) -> Option<(u64, usize)>
    requires readable { bit ≢ 0 → F.pre read at }
    requires fits { at + size < 2 ^ 64 }
    ensures absent { bit ≡ 0 → result ≡ Some (0, at) }
    ensures present { bit ≢ 0 → MatchOption result (F.post read at 0) (λ p. F.post read at p.0 × (p.0 ≢ 0) × (p.1 ≡ at + size)) }
{
    if bit == 0 {
        return Some((0, at));
    }
    let value = read(at);
    if value == 0 {
        return None;
    }
    Some((value, at + size))
}

// Packs fields without cutting them to their width. The caller must reject fields that are too wide.
fn join(f: Fields) -> u64
    requires { FieldsFit f }
    ensures { result ≡ pack_fields f }
{
    f.kind
        + (f.d << field::AT_D)
        + (f.a << field::AT_A)
        + (f.b << field::AT_B)
        + (f.c << field::AT_C)
        + (f.v << field::AT_V)
}

// Decodes the instruction at the front of s if it is valid and enough bytes are left, else gives no answer.
pub fn read_fast(s: &[u8]) -> Option<(u64, usize)>
    ensures { IfSome result (λ r. Word r.0 r.1 ≡ decode_one s.now) }
{
    if s.len() < Instr::MOST_BYTES {
        return None;
    }
    let m = usize::from(s[0]);
    if m > TOP_MAP {
        return None;
    }
    let byte = |at: usize| u64::from(s[at]);
    let (kind, d_at) = part(bit(m, KIND), 1, 1, byte)?;
    let (d, a_at) = part(bit(m, D), d_at, 1, byte)?;
    let (a, b_at) = part(bit(m, A), a_at, 1, byte)?;
    let (b, c_at) = part(bit(m, B), b_at, 1, byte)?;
    let (c, v_at) = part(bit(m, C), c_at, 1, byte)?;
    let (v, end) = part(bit(m, V), v_at, 4, |at| quad(s, at, 1))?;
    let w = join(Fields {
        kind,
        d,
        a,
        b,
        c,
        v,
    });
    let fits = (d < field::FOUR_BITS)
        & (a < field::FOUR_BITS)
        & (b < field::FOUR_BITS)
        & (c < field::FOUR_BITS);
    if fits & is_instruction(w) {
        return Some((w, end));
    }
    None
}
