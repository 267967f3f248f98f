// Tries reading: routines of 1,023 and 1,024 instructions, and a damaged one for each refusal.
ghost use Rattle.std.specs.Prelude.{◌≤◌};

use lines::print_case;
use std::io;
use types::Instr;

// HALTs of one byte each: one more than a routine may have.
const HALTS: usize = Instr::MOST + 1;

// Reads into the room that `words` has.
fn reads_into(rt: &impl Print, name: &str, bytes: &[u8], words: &mut [u64]) -> io::Result<()> {
    print_case(rt, name, codec::read(bytes, words))
}

fn reads(rt: &impl Print, name: &str, bytes: &[u8]) -> io::Result<()> {
    reads_into(rt, name, bytes, &mut [0u64; Instr::MOST])
}

// Reads a count and so many HALTs.
fn reads_halts(rt: &impl Print, name: &str, count: u16, halts: usize) -> io::Result<()>
    requires { halts ≤ 1024 }
{
    let mut bytes = [0u8; Instr::COUNT_BYTES + HALTS];
    bytes[..Instr::COUNT_BYTES].copy_from_slice(&count.to_le_bytes());
    reads(rt, name, &bytes[..Instr::COUNT_BYTES + halts])
}

fn short(rt: &impl Print) -> io::Result<()> {
    reads(rt, "read half_a_count", b"\x01")?;
    reads(rt, "read no_instruction", b"\x01\x00")?;
    reads(rt, "read second_missing", b"\x02\x00\x00")?;
    reads(
        rt,
        "read three_bytes_of_v",
        b"\x01\x00\x23\x01\x01\xc8\x00\x00",
    )
}

fn foreign(rt: &impl Print) -> io::Result<()> {
    reads(rt, "read map_64", b"\x01\x00\x40")?;
    reads(
        rt,
        "read present_0",
        b"\x01\x00\x23\x01\x01\x00\x00\x00\x00",
    )?;
    reads(rt, "read halt_with_d", b"\x01\x00\x02\x01")?;
    reads(
        rt,
        "read foreign_before_register_15",
        b"\x01\x00\x0b\x02\x0f\x01",
    )
}

fn unknown(rt: &impl Print) -> io::Result<()> {
    reads(rt, "read kind_13", b"\x01\x00\x01\x0d")?;
    reads(rt, "read kind_before_present_0", b"\x01\x00\x03\x0d\x00")?;
    reads(rt, "read second_kind_13", b"\x02\x00\x00\x01\x0d")
}

fn off_grade(rt: &impl Print) -> io::Result<()> {
    reads(rt, "read register_14", b"\x02\x00\x00\x03\x02\x0e")?;
    reads(rt, "read register_15", b"\x02\x00\x00\x03\x02\x0f")?;
    reads(rt, "read condition_4", b"\x01\x00\x11\x0b\x04")?;
    reads(rt, "read shift_32", b"\x01\x00\x21\x07\x20\x00\x00\x00")?;
    reads(rt, "read event_16", b"\x01\x00\x21\x0c\x10\x00\x00\x00")
}

fn counts(rt: &impl Print) -> io::Result<()> {
    reads_halts(rt, "read 1023", 1023, Instr::MOST)?;
    reads_halts(rt, "read 1024", 1024, HALTS)?;
    reads_halts(rt, "read 65535", 65535, HALTS)?;
    reads_halts(rt, "read 1023_and_a_byte", 1023, HALTS)
}

fn outputs(rt: &impl Print) -> io::Result<()> {
    reads(rt, "read a_byte_left", b"\x00\x00\x00")?;
    reads_into(rt, "read room_for_1_of_2", b"\x02\x00\x00\x00", &mut [0])?;
    reads_into(
        rt,
        "read room_before_kind_13",
        b"\x02\x00\x01\x0d\x00",
        &mut [0],
    )
}

pub fn cases(rt: &impl Print) -> io::Result<()> {
    short(rt)?;
    foreign(rt)?;
    unknown(rt)?;
    off_grade(rt)?;
    counts(rt)?;
    outputs(rt)
}
