// Compares a word with the one that a kind and fields make.
ghost use Rattle.std.specs.Prelude.{◌≡◌, ◌<◌, ◌^◌, eqb};
ghost use Rattle.spec.specs.Words.{pack_of};

use words::fields::word;

pub fn is_word(w: u64, kind: u64, d: u64, a: u64, b: u64, c: u64, v: u64) -> bool
    requires { (kind < 2 ^ 8) × (d < 2 ^ 4) × (a < 2 ^ 4) × (b < 2 ^ 4) × (c < 2 ^ 4) × (v < 2 ^ 32) }
    ensures { result ≡ eqb w (pack_of kind d a b c v) }
{
    w == word(kind, d, a, b, c, v)
}
