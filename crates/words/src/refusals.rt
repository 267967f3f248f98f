// Finds the first refusal of an instruction from its fields.
ghost use Rattle.std.specs.Prelude.{◌≡◌, ◌≤◌};
ghost use Rattle.types.specs.Names.{top_kind};
ghost use Rattle.types.specs.Results.{refusal_number};
ghost use Rattle.spec.specs.Words.{limit_of, guest_limits, has_stray, has_high, fields_refusal};

use crate::fields::HIDDEN;
use types::{Fields, Instr, Limits, PolicyNumbers, Refusal};

// The largest kind, guest register and condition.
pub const TOP_KIND: u64 = Instr::KIND_EVENT;

const TOP_GUEST: u64 = HIDDEN - 1;

pub const TOP_CONDITION: u64 = 3;

// The largest shift, event and 32-bit number.
pub const TOP_SHIFT: u64 = 31;

pub const TOP_EVENT: u64 = PolicyNumbers::EVENTS as u64 - 1;

pub const TOP_WORD: u64 = 0xFFFF_FFFF;

fn limits(d: u64, a: u64, b: u64, c: u64, v: u64) -> Limits
    ensures { result ≡ limit_of d a b c v }
{
    Limits { d, a, b, c, v }
}

// The largest value of each field of a kind; 0 for a field that it lacks.
fn limits_of(k: u64) -> Limits
    requires { k ≤ top_kind }
    ensures { result ≡ guest_limits k }
{
    match k {
        Instr::KIND_HALT => limits(0, 0, 0, 0, 0),
        Instr::KIND_SET => limits(TOP_GUEST, 0, 0, 0, TOP_WORD),
        Instr::KIND_MOVE => limits(TOP_GUEST, TOP_GUEST, 0, 0, 0),
        Instr::KIND_ADD => limits(TOP_GUEST, TOP_GUEST, TOP_GUEST, 0, 0),
        Instr::KIND_SUB => limits(TOP_GUEST, TOP_GUEST, TOP_GUEST, 0, 0),
        Instr::KIND_AND => limits(TOP_GUEST, TOP_GUEST, TOP_GUEST, 0, 0),
        Instr::KIND_OR => limits(TOP_GUEST, TOP_GUEST, TOP_GUEST, 0, 0),
        Instr::KIND_SAR => limits(TOP_GUEST, TOP_GUEST, 0, 0, TOP_SHIFT),
        Instr::KIND_LOAD => limits(TOP_GUEST, TOP_GUEST, 0, 0, 0),
        Instr::KIND_STORE => limits(0, TOP_GUEST, TOP_GUEST, 0, 0),
        Instr::KIND_GOIF => limits(0, TOP_GUEST, TOP_GUEST, TOP_CONDITION, TOP_WORD),
        Instr::KIND_GOX => limits(TOP_GUEST, TOP_GUEST, TOP_GUEST, TOP_CONDITION, 0),
        Instr::KIND_EVENT => limits(0, 0, 0, 0, TOP_EVENT),
        _ => limits(0, 0, 0, 0, 0),
    }
}

// Whether a field that the kind lacks is nonzero.
fn has_stray(l: Limits, f: Fields) -> bool
    ensures { result ≡ has_stray l f }
{
    (l.d == 0) & (0 < f.d)
        | (l.a == 0) & (0 < f.a)
        | (l.b == 0) & (0 < f.b)
        | (l.c == 0) & (0 < f.c)
        | (l.v == 0) & (0 < f.v)
}

// Whether a field is above its limit.
fn has_high(l: Limits, f: Fields) -> bool
    ensures { result ≡ has_high l f }
{
    (l.d < f.d) | (l.a < f.a) | (l.b < f.b) | (l.c < f.c) | (l.v < f.v)
}

// The first refusal: unknown variety (3), foreign matter (2) or off grade (4). `foreign` says whether the caller has found foreign matter.
pub fn fields_refusal(foreign: bool, f: Fields) -> Result<(), Refusal>
    ensures { refusal_number result ≡ fields_refusal foreign f }
{
    if f.kind > TOP_KIND {
        return Err(Refusal::UnknownKind);
    }
    let most = limits_of(f.kind);
    if foreign | has_stray(most, f) {
        return Err(Refusal::Foreign);
    }
    if has_high(most, f) {
        return Err(Refusal::OffRange);
    }
    Ok(())
}
