// Command words of bundles that name the hidden register. Their numbers and their other registers are 0 here.
use crate::fields::{HIDDEN, field};
use types::Command;

// The hidden register in field d, and in field a.
const D: u64 = HIDDEN << field::AT_D;

const A: u64 = HIDDEN << field::AT_A;

pub const ANDI: u64 = Command::ANDI + D + A;

pub const ORI: u64 = Command::ORI + D + A;

pub const LOAD: u64 = Command::LOAD + A;

pub const STORE: u64 = Command::STORE + A;

pub const GOXR: u64 = Command::GOXR + D;

pub const STOPIF: u64 = Command::STOPIF + D;

pub const KEEP: u64 = Command::KEEP + D;
