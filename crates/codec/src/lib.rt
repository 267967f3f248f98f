// Reads a routine's bytes into words, and writes words as bytes. It re-exports `codec_read` and `codec_write`.
#![tactic(auto)]

pub use codec_read::read;
pub use codec_write::write;
