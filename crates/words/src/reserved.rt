// Reserved bits: for each set of fields, the bits that are 0 in every word that has only those fields.
use crate::fields::field;
use crate::refusals::{TOP_CONDITION, TOP_EVENT, TOP_SHIFT};

// The bits of each field; those of c and v only up to their bounds.
const KIND: u64 = field::BYTE - 1;

const D: u64 = (field::FOUR_BITS - 1) << field::AT_D;

const A: u64 = (field::FOUR_BITS - 1) << field::AT_A;

const B: u64 = (field::FOUR_BITS - 1) << field::AT_B;

const C: u64 = TOP_CONDITION << field::AT_C;

const V: u64 = (field::NUMBER - 1) << field::AT_V;

const SHIFT: u64 = TOP_SHIFT << field::AT_V;

const EVENT: u64 = TOP_EVENT << field::AT_V;

// Only the kind.
pub const WITH_NOTHING: u64 = 0xFFFF_FFFF_FFFF_FFFF - KIND;

pub const WITH_D: u64 = WITH_NOTHING - D;

pub const WITH_D_V: u64 = WITH_D - V;

pub const WITH_D_EVENT: u64 = WITH_D - EVENT;

pub const WITH_EVENT: u64 = WITH_NOTHING - EVENT;

pub const WITH_D_A: u64 = WITH_D - A;

pub const WITH_D_A_V: u64 = WITH_D_A - V;

pub const WITH_D_A_SHIFT: u64 = WITH_D_A - SHIFT;

pub const WITH_D_A_B: u64 = WITH_D_A - B;

pub const WITH_D_A_B_C: u64 = WITH_D_A_B - C;

pub const WITH_A_B: u64 = WITH_NOTHING - A - B;

pub const WITH_A_B_C_V: u64 = WITH_A_B - C - V;
