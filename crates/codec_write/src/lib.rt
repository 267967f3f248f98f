// Writes a routine's words as bytes.
#![tactic(auto)]

pub mod encode;

ghost use Rattle.std.specs.Prelude.{◌≡◌, ◌+◌, ◌≤◌, length};
ghost use Rattle.std.proofs.lemmas.List.Edits.{sets as stores};
ghost use Rattle.types.specs.Names.{most_instructions, count_bytes, room_for};
ghost use Rattle.types.specs.Results.{answer_of};
ghost use Rattle.spec.specs.Words.{word_refusal, first_refused};
ghost use Rattle.spec.specs.Bytes.{encode_one, bytes_of, routine_of, write_answer, write_output};

use crate::encode::encode_word;
use buffers::stores::store;
use codec_read::map::bit_of;
use types::{Instr, Refusal, Reject};
use words::fields::fields;
use words::guest::word_refusal;

// How many bytes a word takes: the map, one for each field, four for v.
#[tactic(auto, using(spec::proofs::Bytes::length_fields))]
fn encoded_size(w: u64) -> usize
    ensures value { result ≡ length (encode_one w) }
    ensures most { result ≤ 10 }
{
    let f = fields(w);
    1 + bit_of(f.kind) + bit_of(f.d) + bit_of(f.a) + bit_of(f.b) + bit_of(f.c) + 4 * bit_of(f.v)
}

// The size, or small hopper (9) if there is no room for so many bytes.
fn room_for(room: usize, size: usize) -> Result<usize, Reject>
    ensures { answer_of result ≡ room_for room size }
{
    if room < size {
        return Err(Reject::from(Refusal::SmallOutput));
    }
    Ok(size)
}

// The first refusal among the words, or how many bytes the routine takes, if there is room for them.
#[tactic(auto, using(crate::proofs::Writing::measuring))]
fn measure(words: &[u64], room: usize) -> Result<usize, Reject>
    requires { length words.now ≤ most_instructions }
    ensures { answer_of result ≡ first_refused word_refusal words.now 0 (room_for room (length (routine_of words.now))) }
{
    let mut size = Instr::COUNT_BYTES;
    for (i, w) in words.iter().enumerate() {
        if let Err(refusal) = word_refusal(*w) {
            return Err(Reject::at(refusal, i));
        }
        size += encoded_size(*w);
    }
    room_for(room, size)
}

// Writes the bytes of all words, from an index on.
#[tactic(auto, using(crate::proofs::Writing::emitting))]
fn emit(words: &[u64], bytes: &mut [u8], at: usize)
    requires { at + length (bytes_of words.now) ≤ length bytes.old }
    ensures { bytes.new ≡ stores bytes.old at (bytes_of words.now) }
{
    let mut to = at;
    for w in words {
        to = encode_word(bytes, to, *w);
    }
}

// Writes the count and the bytes of all words.
#[tactic(auto, using(crate::proofs::Writing::put_routine))]
fn encode_all(words: &[u64], bytes: &mut [u8])
    requires room { count_bytes + length (bytes_of words.now) ≤ length bytes.old }
    requires few { length words.now ≤ most_instructions }
    ensures { bytes.new ≡ stores bytes.old 0 (routine_of words.now) }
{
    store(bytes, 0, &(words.len() as u16).to_le_bytes());
    emit(words, bytes, Instr::COUNT_BYTES);
}

// What writing answers. It stores nothing.
#[tactic(auto, using(spec::proofs::Bytes::write_many, spec::proofs::Bytes::write_few))]
fn write_check(words: &[u64], room: usize) -> Result<usize, Reject>
    ensures { answer_of result ≡ write_answer words.now room }
{
    if words.len() > Instr::MOST {
        return Err(Reject::from(Refusal::Oversize));
    }
    measure(words, room)
}

// Writes a routine to the start of `bytes`. A refusal leaves the output as it was.
#[tactic(auto, using(crate::proofs::Writing::kept, crate::proofs::Writing::ok_few, crate::proofs::Writing::ok_room, crate::proofs::Writing::written, types::proofs::Exits::exit_rejected))]
pub fn write(words: &[u64], bytes: &mut [u8]) -> Result<usize, Reject>
    ensures answer { answer_of result ≡ write_answer words.now (length bytes.old) }
    ensures content { bytes.new ≡ write_output words.now bytes.old }
{
    let size = write_check(words, bytes.len())?;
    encode_all(words, bytes);
    Ok(size)
}
