// Reads a routine's bytes into words.
#![tactic(auto)]

pub mod bytes;
pub mod decode;
pub mod fast_path;
pub mod full_path;
pub mod map;

ghost use Rattle.std.specs.Prelude.{◌≡◌, ◌≤◌, ◌<◌, length, unwrap_or, IfSome};
ghost use Rattle.std.proofs.lemmas.List.Edits.{sets as stores};
ghost use Rattle.types.specs.Names.{count_bytes};
ghost use Rattle.types.specs.Results.{answer_of};
ghost use Rattle.spec.specs.Bytes.{scan_of, words_of, count_of, read_answer, read_output};
ghost use Rattle.codec_read.specs.Scans.{first_past};

use crate::decode::read_one;
use buffers::cells::poke;
use types::{Instr, Refusal, Reject};
use words::routine::bad_landing;

// How many instructions were read, or the refusal; and the index of the first GOIF that jumps past them all, also before a refusal.
#[derive(Clone, Copy, Debug, PartialEq, Eq)]
pub struct Scanned {
    pub read: Result<usize, Reject>,
    pub past: Option<usize>,
}

// Reads n instructions from s and stores their words while there is room. It stops at the first refusal. With no room it only decides.
#[tactic(auto, using(crate::proofs::Reading::scanning), unfolding(crate::specs::Scans::first_past))]
pub fn scan(s: &[u8], n: usize, words: &mut [u64]) -> Scanned
    ensures answer { answer_of result.read ≡ scan_of n 0 s.now }
    ensures past { unwrap_or result.past n ≡ first_past n (words_of n s.now) 0 }
    ensures within { IfSome result.past (λ i. i < n) }
    ensures content { words.new ≡ stores words.old 0 (words_of n s.now) }
{
    let mut t = s;
    let mut past: Option<usize> = None;
    for i in 0..n {
        match read_one(t) {
            Ok((w, used)) => {
                past = past.or(bad_landing(n, w).then_some(i));
                poke(words, i, w);
                t = &t[used..];
            }
            Err(refusal) => {
                return Scanned {
                    read: Err(Reject::at(refusal, i)),
                    past,
                };
            }
        }
    }
    let read = if t.is_empty() {
        Ok(n)
    } else {
        Err(Reject::from(Refusal::Trailing))
    };
    Scanned { read, past }
}

// The routine's count: two bytes, low first.
pub fn count(s: &[u8]) -> usize
    requires { count_bytes ≤ length s.now }
    ensures { result ≡ count_of s.now }
{
    usize::from(u16::from_le_bytes([s[0], s[1]]))
}

// What reading answers. It stores nothing.
#[tactic(auto, using(crate::proofs::Reading::read_rest, spec::proofs::Bytes::read_short, spec::proofs::Bytes::read_many, spec::proofs::Bytes::read_room))]
fn read_check(bytes: &[u8], room: usize) -> Result<usize, Reject>
    ensures { answer_of result ≡ read_answer bytes.now room }
{
    if bytes.len() < Instr::COUNT_BYTES {
        return Err(Reject::from(Refusal::Short));
    }
    let n = count(bytes);
    if n > Instr::MOST {
        return Err(Reject::from(Refusal::Oversize));
    }
    if room < n {
        return Err(Reject::from(Refusal::SmallOutput));
    }
    scan(&bytes[Instr::COUNT_BYTES..], n, &mut []).read
}

// Reads a routine into the start of `words`. One pass decides and one writes, so a refusal leaves the output as it was.
#[tactic(auto, using(crate::proofs::Reading::ok_two, crate::proofs::Reading::filled, crate::proofs::Reading::refused))]
pub fn read(bytes: &[u8], words: &mut [u64]) -> Result<usize, Reject>
    ensures answer { answer_of result ≡ read_answer bytes.now (length words.old) }
    ensures content { words.new ≡ read_output bytes.now words.old }
{
    let n = read_check(bytes, words.len())?;
    scan(&bytes[Instr::COUNT_BYTES..], n, words);
    Ok(n)
}
