// Tells whether a 64-bit word is a command of the machine, and which one.
ghost use Rattle.std.specs.Prelude.{◌≡◌, ◌<◌};
ghost use Rattle.types.specs.Names.{command_kinds};
ghost use Rattle.spec.specs.Words.{kind_of};
ghost use Rattle.spec.specs.Commands.{limits_of, is_command, command_of};
ghost use Rattle.words.specs.fields.Strays.{stray_of};

use crate::fields::{field, fields};
use crate::reserved;
use types::{Bundle, Command};

// How many commands a bundle has. The next bundle is as many addresses away.
pub const BUNDLE_LENGTH: u64 = Bundle::LENGTH as u64;

// NOP has no fields, so its word is its kind.
pub const NOP_WORD: u64 = Command::NOP;

// The reserved bits of a kind, 0 in each of its commands: fields that the kind lacks, bits above the bounds of c and v, and bits 24 to 31.
fn stray_bits(k: u64) -> u64
    requires { k < command_kinds }
    ensures { result ≡ stray_of (limits_of k) }
{
    match k {
        Command::NOP => reserved::WITH_NOTHING,
        Command::HALT => reserved::WITH_NOTHING,
        Command::SET => reserved::WITH_D_V,
        Command::MOVE => reserved::WITH_D_A,
        Command::ADD => reserved::WITH_D_A_B,
        Command::SUB => reserved::WITH_D_A_B,
        Command::AND => reserved::WITH_D_A_B,
        Command::OR => reserved::WITH_D_A_B,
        Command::SAR => reserved::WITH_D_A_SHIFT,
        Command::ANDI => reserved::WITH_D_A_V,
        Command::ORI => reserved::WITH_D_A_V,
        Command::SHL => reserved::WITH_D_A_SHIFT,
        Command::LOAD => reserved::WITH_D_A,
        Command::STORE => reserved::WITH_A_B,
        Command::GOIF => reserved::WITH_A_B_C_V,
        Command::GOXR => reserved::WITH_D_A_B_C,
        Command::LOOK => reserved::WITH_D_EVENT,
        Command::STOPIF => reserved::WITH_D,
        Command::KEEP => reserved::WITH_D,
        Command::EVENT => reserved::WITH_EVENT,
        _ => 0,
    }
}

// Whether a word of kind k is a command. If the caller passes a constant k, the mask is a constant too.
pub fn is_of_kind(k: u64, w: u64) -> bool
    requires { (k < command_kinds) × (kind_of w ≡ k) }
    ensures { result ≡ is_command w }
{
    w & stray_bits(k) == 0
}

// Whether a word is a command: its kind is known, and it has no stray bit. Four bits always name one of the sixteen registers.
pub fn is_command(w: u64) -> bool
    ensures { result ≡ is_command w }
{
    let k = field::kind(w);
    if k < Command::KINDS {
        return is_of_kind(k, w);
    }
    false
}

pub fn command(w: u64) -> Command
    ensures { result ≡ command_of w }
{
    if !is_command(w) {
        return Command::Invalid;
    }
    let f = fields(w);
    let kind = f.kind;
    match kind {
        Command::NOP => Command::Nop,
        Command::HALT => Command::Halt,
        Command::SET..=Command::SHL => Command::Plain(kind, f.d, f.a, f.b, f.v),
        Command::LOAD => Command::Load(f.d, f.a),
        Command::STORE => Command::Store(f.a, f.b),
        Command::GOIF => Command::GoIf(f.a, f.b, f.c, f.v),
        Command::GOXR => Command::GoReg(f.d, f.a, f.b, f.c),
        Command::LOOK => Command::Look(f.d, f.v),
        Command::STOPIF => Command::StopIf(f.d),
        Command::KEEP => Command::Keep(f.d),
        Command::EVENT => Command::Event(f.v),
        _ => Command::Invalid,
    }
}
