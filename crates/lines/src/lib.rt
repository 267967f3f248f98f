// What the programs `trial` and `tray` share: document 01's layout, and lines of text and numbers.
// Each function that prints fails where the output does.
#![tactic(auto)]

ghost use Rattle.std.specs.Prelude.{◌≡◌, replicate};
ghost use Rattle.types.specs.Names.{orders, top_word};
ghost use Rattle.types.specs.Records.{layout_of};

use std::convert::AsSlice;
use std::io;
use types::{Answer, Layout};

// The base in document 01's layout.
pub const BASE: u32 = 4096;

// Document 01's layout, with this base.
pub fn drum(base: u32) -> Layout
    ensures { result ≡ layout_of 1024 256 511 0 16 2 base 64 (replicate orders top_word) }
{
    let ceilings = [Layout::NO_LIMIT; Layout::CEILINGS];
    Layout::new(1024, 256, 511, 0, 16, 2, base, 64, ceilings)
}

pub fn print_text(rt: &impl Print, text: &[u8]) -> io::Result<()> {
    rt.write_all(text)
}

pub fn end(rt: &impl Print) -> io::Result<()> {
    print_text(rt, b"\n")
}

// Prints a text and a number, without a line end.
pub fn print(rt: &impl Print, text: &[u8], n: u64) -> io::Result<()> {
    print_text(rt, text)?;
    print!(rt; "{n}")
}

// Prints a line with a case's name and its answer. The name is bytes or text.
pub fn print_case(
    rt: &impl Print,
    name: impl AsSlice<u8> + Drop,
    outcome: impl Into<Answer>,
) -> io::Result<()> {
    let answer: Answer = outcome.into();
    print_text(rt, name.as_slice())?;
    print(rt, b" ", u64::from(answer.number))?;
    print(rt, b" ", answer.place as u64)?;
    end(rt)
}
