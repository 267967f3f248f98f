// Decides the effect of the instruction at the index. It changes nothing.
ghost use Rattle.std.specs.Prelude.{◌≡◌, true, length};
ghost use Rattle.spec.specs.Words.{instr_of, bundles_for};
ghost use Rattle.engine_step.specs.sight.Seen.{seen};
ghost use Rattle.engine_spec.specs.Engines.{instr_effect};
ghost use Rattle.engine_spec.specs.Continues.{is_instruction_at, reached_effect};

use crate::events::checked_event;
use crate::fetch::{Routine, UNUSED_KIND, UNUSED_KIND_TOO};
use crate::fields::GuestWord;
use crate::jumps::{branch_effect, jump_effect};
use crate::sight::Sight;
use types::{Effect, Instr, Status};
use words::{alu, field};

// The last number of four bits, which is no kind either.
const UNUSED_KIND_LAST: u64 = UNUSED_KIND_TOO + 1;

// The effect of a guest word. Each of the 16 numbers of four bits has an arm, so the match compiles to one jump without a range test.
// Each arm reads only the fields that it uses, so none is read before the jump.
#[tactic(auto, using(crate::proofs::effects::Laws::arms))]
fn instruction_effect(w: GuestWord, routine: Routine, sight: Sight) -> Effect
    ensures { result ≡ instr_effect sight.entry.layout.now (bundles_for (length routine.entry.words.now)) (instr_of w.word) (seen sight.entry) }
{
    let regs = sight.regs;
    match w.word % field::FOUR_BITS {
        Instr::KIND_HALT => Effect::End(Status::Ended),
        Instr::KIND_SET => Effect::SetReg(w.d(), w.v()),
        Instr::KIND_MOVE => Effect::SetReg(w.d(), w.a(regs)),
        Instr::KIND_ADD => Effect::SetReg(w.d(), alu::add(w.a(regs), w.b(regs))),
        Instr::KIND_SUB => Effect::SetReg(w.d(), alu::sub(w.a(regs), w.b(regs))),
        Instr::KIND_AND => Effect::SetReg(w.d(), alu::and(w.a(regs), w.b(regs))),
        Instr::KIND_OR => Effect::SetReg(w.d(), alu::or(w.a(regs), w.b(regs))),
        Instr::KIND_SAR => Effect::SetReg(w.d(), alu::sar(w.a(regs), w.v())),
        Instr::KIND_LOAD => Effect::SetReg(w.d(), sight.memory[w.address(sight.layout, regs)]),
        Instr::KIND_STORE => Effect::SetCell(w.address(sight.layout, regs), w.b(regs)),
        Instr::KIND_GOIF => branch_effect(
            alu::holds(field::c(w.word), w.a(regs), w.b(regs)),
            w.v(),
            sight.at,
        ),
        Instr::KIND_GOX => jump_effect(
            regs[w.d()],
            alu::holds(field::c(w.word), w.a(regs), w.b(regs)),
            sight.at,
            routine.top,
            sight.layout.landings,
            sight.memory,
        ),
        Instr::KIND_EVENT => checked_event(
            sight.layout,
            w.v(),
            sight.memory,
            sight.state,
            sight.free,
            sight.left,
        ),
        UNUSED_KIND => Effect::End(Status::Faulted),
        UNUSED_KIND_TOO => Effect::End(Status::Faulted),
        UNUSED_KIND_LAST => Effect::End(Status::Faulted),
        _ => Effect::End(Status::Faulted),
    }
}

// The effect of the word at the index, which is known to be an instruction.
#[tactic(auto, using(crate::proofs::fetch::Fetching::fetched_acts, crate::proofs::fetch::Fetching::none_acts))]
pub fn next_effect(routine: Routine, sight: Sight) -> Effect
    requires { is_instruction_at routine.words.now sight.at ≡ true }
    ensures { result ≡ reached_effect sight.entry.layout.now routine.entry.words.now (seen sight.entry) }
{
    match routine.fetch(sight.at) {
        Some(word) => instruction_effect(GuestWord { word }, routine, sight),
        None => Effect::End(Status::Faulted),
    }
}
