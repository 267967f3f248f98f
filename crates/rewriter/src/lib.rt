// Rewrites a routine's words into bundles of four commands. One pass validates, one writes the bundles over a copy of the words.
#![tactic(auto)]

pub mod answers;
pub mod bundles;

ghost use Rattle.std.specs.Prelude.{◌≡◌, ◌+◌, ◌*◌, ◌≤◌, length, take};
ghost use Rattle.std.proofs.lemmas.List.Edits.{sets};
ghost use Rattle.types.specs.Names.{bundle_length};
ghost use Rattle.types.specs.Results.{answer_of};
ghost use Rattle.spec.specs.Words.{routine};
ghost use Rattle.spec.specs.Bundles.{bundles_from, rewrite_answer, rewrite_output};
ghost use Rattle.rewriter.specs.Rewriting.{BundlesFit};

use crate::answers::rewrite_answer;
use crate::bundles::bundle;
use types::{Bundle, Instr, Layout, Reject};
use words::count::bundles;
use words::fields::instruction;
use words::stores::store;

// Instruction h of a routine. HALTs follow the last word.
#[tactic(auto, using(crate::proofs::Filling::routine_in, crate::proofs::Filling::routine_past))]
fn instruction_at(words: &[u64], h: usize) -> Instr
    ensures { result ≡ routine words.now h }
{
    match words.get(h) {
        Some(w) => instruction(*w),
        None => Instr::HALT,
    }
}

// Writes the words of a bundle from index `at` on. One by one: a copy of the slice takes the words through memory, and rewriting takes a fifth longer.
#[tactic(auto, using(crate::proofs::Filling::put_four))]
fn write_bundle(commands: &mut [u64], at: usize, made: Bundle)
    requires { at + bundle_length ≤ length commands.old }
    ensures { commands.new ≡ sets commands.old at made.words }
{
    let [w, x, y, z] = made.words;
    commands[at] = w;
    commands[at + 1] = x;
    commands[at + 2] = y;
    commands[at + Bundle::TAIL] = z;
}

// Replaces the k words at the start of `commands` by their bundles. It starts with the last: bundle h begins at 4h, so it overwrites no word before h.
#[tactic(auto, using(crate::proofs::Filling::ready_room, crate::proofs::Filling::length_put, crate::proofs::Expanding::expand_start, crate::proofs::Expanding::expand_packable, crate::proofs::Expanding::expand_more, crate::proofs::Expanding::expand_done))]
pub fn expand(layout: Layout, n: usize, k: usize, commands: &mut [u64])
    requires { BundlesFit layout n (take k commands.old) (length commands.old) × (k ≤ length commands.old) }
    ensures { commands.new ≡ sets commands.old 0 (bundles_from layout n (routine (take k commands.old)) 0 n) }
{
    for h in (0..n).rev() {
        let made = bundle(layout, n, instruction_at(&commands[..k], h));
        write_bundle(commands, Bundle::LENGTH * h, made);
    }
}

#[tactic(auto, using(crate::proofs::Written::short, crate::proofs::Written::words_fit, crate::proofs::Written::list_long, crate::proofs::Written::list_ready, crate::proofs::Written::written, crate::proofs::Written::refused))]
pub fn rewrite(layout: Layout, words: &[u64], commands: &mut [u64]) -> Result<usize, Reject>
    ensures answer { answer_of result ≡ rewrite_answer layout words.now (length commands.old) }
    ensures content { commands.new ≡ rewrite_output layout words.now commands.old }
{
    let length = rewrite_answer(layout, words, commands.len())?;
    store(commands, 0, words);
    expand(layout, bundles(words.len() as u32), words.len(), commands);
    Ok(length)
}
