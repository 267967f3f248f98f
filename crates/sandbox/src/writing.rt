// Writes the commands of a validated routine in place: its words first, then their bundles over them, the last first.
ghost use Rattle.std.specs.Prelude.{◌≡◌, length};
ghost use Rattle.std.proofs.lemmas.List.Edits.{sets};
ghost use Rattle.spec.specs.Bytes.{words_in};
ghost use Rattle.spec.specs.Bundles.{commands_of};
ghost use Rattle.sandbox_spec.specs.Loading.{translate_answer};

use codec_read::{count, scan};
use rewriter::expand;
use types::{Instr, Layout};
use words::count::bundles;

// Writes the words to the start of `commands`, then replaces them by their bundles.
#[tactic(auto, using(crate::proofs::writing::Laws::read_two, crate::proofs::writing::Laws::read_few, crate::proofs::writing::Laws::all_ready, crate::proofs::writing::Laws::all_long, crate::proofs::writing::Laws::all_written))]
pub fn write_routine(layout: Layout, bytes: &[u8], commands: &mut [u64])
    requires { (translate_answer layout bytes.now (length commands.old)).number ≡ 0 }
    ensures { commands.new ≡ sets commands.old 0 (commands_of layout (words_in bytes.now)) }
{
    let k = count(bytes);
    scan(&bytes[Instr::COUNT_BYTES..], k, commands);
    expand(layout, bundles(k as u32), k, commands);
}
