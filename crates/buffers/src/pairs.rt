// Writes pairs to a log: an event and its value, in two cells.
ghost use Rattle.std.specs.Prelude.{◌≡◌, ◌<◌, ◌^◌};
ghost use Rattle.spec.specs.Layouts.{limited as limitedOf};
ghost use Rattle.spec.specs.Machines.{with_pair};

use crate::cells::{peek, poke};
use types::RunAnswer;

pub fn write_pair(log: &mut [u32], n: usize, e: u32, x: u32)
    requires { n < 2 ^ 62 }
    ensures { log.new ≡ with_pair log.old n e x }
{
    let first = RunAnswer::PAIR_CELLS * n;
    poke(log, first, e);
    poke(log, first + 1, x);
}

// What an order records: its value, but at most its ceiling.
fn limited(ceilings: &[u32], v: u32, x: u32) -> u32
    ensures { result ≡ limitedOf ceilings.now v x }
{
    x.min(peek(ceilings, v as usize))
}

// Writes pair n for an order, with its value limited.
pub fn order(ceilings: &[u32], v: u32, x: u32, log: &mut [u32], n: usize)
    requires { n < 2 ^ 62 }
    ensures { log.new ≡ with_pair log.old n v (limitedOf ceilings.now v x) }
{
    let y = limited(ceilings, v, x);
    write_pair(log, n, v, y);
}
