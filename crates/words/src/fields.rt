// Unpacks a word into its fields, packs fields into a word, and turns fields into an instruction.
pub mod field;

ghost use Rattle.std.specs.Prelude.{◌≡◌};
ghost use Rattle.spec.specs.Words.{v_of, fields_of, pack_fields, instr_of};
ghost use Rattle.words.specs.fields.Truncation.{truncate_fields, truncated_word};
ghost use Rattle.words.specs.fields.Guests.{only_guest_registers};

use types::{Fields, Instr, Machine};

// The hidden register, as a field names it. It is also the number of guest registers.
pub const HIDDEN: u64 = Machine::HIDDEN as u64;

pub fn fields(w: u64) -> Fields
    ensures { result ≡ fields_of w }
{
    Fields {
        kind: field::kind(w),
        d: field::d(w),
        a: field::a(w),
        b: field::b(w),
        c: field::c(w),
        v: field::v(w),
    }
}

// The number of a word, in 32 bits.
pub fn v_field(w: u64) -> u32
    ensures { result ≡ v_of w }
{
    field::v(w) as u32
}

// Packs six fields into a word. Each is cut to its width.
pub fn word(kind: u64, d: u64, a: u64, b: u64, c: u64, v: u64) -> u64
    ensures { result ≡ truncated_word kind d a b c v }
{
    kind % field::BYTE
        + ((d % field::FOUR_BITS) << field::AT_D)
        + ((a % field::FOUR_BITS) << field::AT_A)
        + ((b % field::FOUR_BITS) << field::AT_B)
        + ((c % field::FOUR_BITS) << field::AT_C)
        + ((v % field::NUMBER) << field::AT_V)
}

pub fn pack(f: Fields) -> u64
    ensures { result ≡ pack_fields (truncate_fields f) }
{
    word(f.kind, f.d, f.a, f.b, f.c, f.v)
}

// The lowest bit of each register field.
const LOWEST: u64 = (1 << field::AT_D) + (1 << field::AT_A) + (1 << field::AT_B);

// Whether no register field of a word names the hidden register, whose four bits are all 1. One test covers the three fields.
pub fn only_guest_registers(w: u64) -> bool
    ensures { result ≡ only_guest_registers w }
{
    let pairs = w & (w >> 1);
    (pairs & (pairs >> 2)) & LOWEST == 0
}

pub fn instruction(w: u64) -> Instr
    ensures { result ≡ instr_of w }
{
    let kind = field::kind(w);
    let d = field::d(w);
    let a = field::a(w);
    let b = field::b(w);
    let c = field::c(w);
    let v = field::v(w);
    match kind {
        Instr::KIND_HALT => Instr::HALT,
        Instr::KIND_SET..=Instr::KIND_SAR => Instr::PLAIN(kind, d, a, b, v),
        Instr::KIND_LOAD => Instr::LOAD(d, a),
        Instr::KIND_STORE => Instr::STORE(a, b),
        Instr::KIND_GOIF => Instr::GOIF(a, b, c, v),
        Instr::KIND_GOX => Instr::GOX(d, a, b, c),
        _ => Instr::EVENT(v),
    }
}
