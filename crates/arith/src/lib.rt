// Arithmetic on 32-bit numbers, and the four conditions of a jump.
#![tactic(auto)]

pub mod alu;
pub mod signed;
