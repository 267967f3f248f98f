// Tries the paper's sample cases that are not theorems, and a damaged routine for each refusal of reading and rewriting.
// Prints a line for each case: its name, the answer's number and its place. Fails where the output does.
#![tactic(auto)]

pub mod reading;

use lines::{BASE, drum, print_case};
use std::io;
use types::{Bundle, Instr, Layout};

// Rewrites into the room that `commands` has.
fn rewrites_into(
    rt: &impl Print,
    name: &str,
    layout: Layout,
    words: &[u64],
    commands: &mut [u64],
) -> io::Result<()> {
    print_case(rt, name, rewriter::rewrite(layout, words, commands))
}

fn rewrites(rt: &impl Print, name: &str, layout: Layout, words: &[u64]) -> io::Result<()> {
    rewrites_into(rt, name, layout, words, &mut [0u64; Bundle::MOST_COMMANDS])
}

// The output has room for seven commands, one less than two bundles.
fn rewrites_to_7(rt: &impl Print, name: &str, layout: Layout, words: &[u64]) -> io::Result<()> {
    rewrites_into(rt, name, layout, words, &mut [0u64; 7])
}

fn bad_words(rt: &impl Print, layout: Layout) -> io::Result<()> {
    rewrites(rt, "rewrite kind_13", layout, &[0, 0xd])?;
    rewrites(rt, "rewrite stray_bit_24", layout, &[0, 0x100_0000])?;
    rewrites(rt, "rewrite present_field", layout, &[0x1_0000_0000])?;
    rewrites(rt, "rewrite register_14", layout, &[0, 0, 0xe0003])?;
    rewrites(rt, "rewrite register_15", layout, &[0, 0, 0xf0003])
}

fn landings(rt: &impl Print, layout: Layout) -> io::Result<()> {
    rewrites(rt, "rewrite goif_to_the_end", layout, &[0x1_0000_000a])?;
    rewrites(rt, "rewrite goif_past_the_end", layout, &[0, 0x3_0000_000a])?;
    rewrites(rt, "rewrite grade_before_landing", layout, &[0x9_0000_f00a])
}

fn lists(rt: &impl Print, layout: Layout) -> io::Result<()> {
    let most = [0u64; Instr::MOST];
    rewrites(rt, "rewrite 1023", layout, &most)?;
    let more = [0u64; Instr::MOST + 1];
    rewrites(rt, "rewrite 1024", layout, &more)?;
    rewrites_to_7(rt, "rewrite room_for_7_of_8", layout, &[0])
}

fn layouts(rt: &impl Print) -> io::Result<()> {
    let ceilings = [Layout::NO_LIMIT; Layout::CEILINGS];
    let unaligned = Layout::new(64, 6, 9, 0, 16, 1, 0, 32, ceilings);
    rewrites(rt, "rewrite sandbox_6_to_9", unaligned, &[0xd])?;
    rewrites(rt, "rewrite base_16_of_7", drum(16), &[0, 0, 0, 0, 0, 0, 0])?;
    rewrites(rt, "rewrite base_32_of_7", drum(32), &[0, 0, 0, 0, 0, 0, 0])?;
    rewrites_to_7(rt, "rewrite base_before_room", drum(4), &[0])
}

fn main(rt: HostRuntime) -> io::Result<()> {
    crate::reading::cases(&rt)?;
    let layout = drum(BASE);
    bad_words(&rt, layout)?;
    landings(&rt, layout)?;
    lists(&rt, layout)?;
    layouts(&rt)
}
