// Turns answers into the arrays of numbers that a C host sees.
ghost use Rattle.std.specs.Prelude.{◌≡◌, ◌<◌, ◌^◌};
ghost use Rattle.capi_spec.specs.Numbers.{answer_to, run_answer_to, made_to};

use types::{Answer, RunAnswer};

// How many numbers these have: an answer, a run's answer, a made policy.
pub const ANSWER: usize = 2;

pub const RUN_ANSWER: usize = 4;

pub const MADE: usize = 4;

pub fn answer_of(a: Answer) -> [u32; ANSWER]
    requires { a.place < 2 ^ 32 }
    ensures { result ≡ answer_to a }
{
    [u32::from(a.number), a.place as u32]
}

pub fn run_answer_of(a: RunAnswer) -> [u32; RUN_ANSWER]
    requires { (a.pairs < 2 ^ 32) × (a.used < 2 ^ 32) }
    ensures { result ≡ run_answer_to a }
{
    [
        u32::from(u8::from(a.ending)),
        a.steps,
        a.pairs as u32,
        a.used as u32,
    ]
}

// A made policy: its answer, its state count, and one more number.
pub fn made_of(a: Answer, states: u32, more: u32) -> [u32; MADE]
    requires { a.place < 2 ^ 32 }
    ensures { result ≡ made_to a states more }
{
    [u32::from(a.number), a.place as u32, states, more]
}
