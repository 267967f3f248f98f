// Builds the four command words of an instruction's bundle.
ghost use Rattle.std.specs.Prelude.{◌≡◌, [], ◌∷◌};
ghost use Rattle.spec.specs.Bundles.{bundle_of};
ghost use Rattle.words.specs.Packing.{Packable};

use types::{Bundle, Command, Instr, Layout};
use words::command::{BUNDLE_LENGTH, NOP_WORD};
use words::fields::{HIDDEN, word};

// The bundle of one command and three NOPs.
fn single(w: u64) -> Bundle
    ensures { result.words ≡ w ∷ 0 ∷ 0 ∷ 0 ∷ [] }
{
    Bundle {
        words: [w, NOP_WORD, NOP_WORD, NOP_WORD],
    }
}

// The bundle of an instruction in a list of n bundles.
pub fn bundle(l: Layout, n: usize, i: Instr) -> Bundle
    requires { Packable l n i }
    ensures { result ≡ bundle_of l n i }
{
    let base = u64::from(l.base);
    let low = u64::from(l.low);
    let high = u64::from(l.high);
    match i {
        Instr::HALT => single(word(Command::HALT, 0, 0, 0, 0, 0)),
        Instr::PLAIN(k, d, a, b, v) => single(word(k + Instr::PLAIN_STEP, d, a, b, 0, v)),
        Instr::LOAD(d, a) => Bundle {
            words: [
                word(Command::ANDI, HIDDEN, a, 0, 0, high),
                word(Command::ORI, HIDDEN, HIDDEN, 0, 0, low),
                word(Command::LOAD, d, HIDDEN, 0, 0, 0),
                NOP_WORD,
            ],
        },
        Instr::STORE(a, b) => Bundle {
            words: [
                word(Command::ANDI, HIDDEN, a, 0, 0, high),
                word(Command::ORI, HIDDEN, HIDDEN, 0, 0, low),
                word(Command::STORE, 0, HIDDEN, b, 0, 0),
                NOP_WORD,
            ],
        },
        Instr::GOIF(a, b, c, v) => single(word(
            Command::GOIF,
            0,
            a,
            b,
            c,
            base + BUNDLE_LENGTH * v,
        )),
        Instr::GOX(d, a, b, c) => Bundle {
            words: [
                word(Command::SHL, HIDDEN, d, 0, 0, Bundle::SHIFT),
                word(
                    Command::ANDI,
                    HIDDEN,
                    HIDDEN,
                    0,
                    0,
                    base + BUNDLE_LENGTH * n as u64 - 1,
                ),
                word(Command::ORI, HIDDEN, HIDDEN, 0, 0, base),
                word(Command::GOXR, HIDDEN, a, b, c, 0),
            ],
        },
        Instr::EVENT(e) => Bundle {
            words: [
                word(Command::LOOK, HIDDEN, 0, 0, 0, e),
                word(Command::STOPIF, HIDDEN, 0, 0, 0, 0),
                word(Command::EVENT, 0, 0, 0, 0, e),
                word(Command::KEEP, HIDDEN, 0, 0, 0, 0),
            ],
        },
    }
}
