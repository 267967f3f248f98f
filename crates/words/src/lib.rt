// Guest words, which are a routine's instructions, and command words, which are the machine's: their fields, and why a word is refused.
// It re-exports the modules of `layout`, `arith` and `buffers` that rewriter and checker need.
#![tactic(auto)]

pub mod command;
pub mod fields;
pub mod guest;
pub mod hidden;
pub mod refusals;
pub mod reserved;
pub mod routine;

pub use crate::fields::field;
pub use arith::alu;
pub use buffers::stores;
pub use layout::{count, memory};
