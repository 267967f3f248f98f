// Decides the effect of the word at pc. It changes nothing.
ghost use Rattle.std.specs.Prelude.{◌≡◌, ◌<◌, length, if◌then◌else◌, nat_eq, nat_lt, slice_index};
ghost use Rattle.types.specs.declared.Status.TheVariants.{Stopped, Faulted};
ghost use Rattle.types.specs.declared.Effect.TheVariants.{Go, SetReg, SetCell, End};
ghost use Rattle.types.specs.Names.{registers, no_arrow};
ghost use Rattle.spec.specs.Commands.{command_of, plain_of};
ghost use Rattle.machine_step.specs.effects.CommandFields.{FieldsInRange};
ghost use Rattle.spec.specs.Machines.{next_pc, effect_of};
ghost use Rattle.machine_step.specs.view.Views.{view_with, effect_at};

use crate::events::{event, look};
use crate::landings::jump_effect;
use crate::view::ViewNumbers;
use buffers::cells::peek;
use types::{Command, Effect, Machine, PolicyNumbers, Status};
use words::{alu, command};

// The effect of GOIF. It computes the next pc itself: if the caller did, a register would be held across the match.
fn branch_target(holds: bool, to: u32, pc: u32) -> Effect
    ensures { result ≡ Go (if holds then to else next_pc pc) }
{
    if holds {
        return Effect::Go(to);
    }
    Effect::Go(alu::add(pc, 1))
}

// Effect e of a command that uses cell i, or a fault if there is no such cell.
fn if_cell(i: usize, memory: &[u32], e: Effect) -> Effect
    ensures { result ≡ (if nat_lt i (length memory.now) then e else End Faulted) }
{
    if i < memory.len() {
        return e;
    }
    Effect::End(Status::Faulted)
}

pub fn load_effect(d: usize, i: usize, memory: &[u32]) -> Effect
    ensures { result ≡ (if nat_lt i (length memory.now) then SetReg d (slice_index memory.now i) else End Faulted) }
{
    if_cell(i, memory, Effect::SetReg(d, peek(memory, i)))
}

fn store_effect(i: usize, x: u32, memory: &[u32]) -> Effect
    ensures { result ≡ (if nat_lt i (length memory.now) then SetCell i x else End Faulted) }
{
    if_cell(i, memory, Effect::SetCell(i, x))
}

fn stop_if(x: u32, pc: u32) -> Effect
    ensures { result ≡ (if nat_eq x no_arrow then End Stopped else Go (next_pc pc)) }
{
    if x == PolicyNumbers::NO_ARROW {
        return Effect::End(Status::Stopped);
    }
    Effect::Go(alu::add(pc, 1))
}

// The value of register i.
fn reg(regs: &[u32; Machine::REGISTERS], i: u64) -> u32
    requires { i < registers }
    ensures { result ≡ slice_index regs.now i }
{
    regs[i as usize]
}

// The value that a plain command puts into its register.
#[tactic(auto, unfolding(spec::specs::Commands::plain_of))]
fn value(k: u64, x: u32, y: u32, v: u32) -> u32
    ensures { result ≡ plain_of k x y v }
{
    match k {
        Command::SET => v,
        Command::MOVE => x,
        Command::ADD => alu::add(x, y),
        Command::SUB => alu::sub(x, y),
        Command::AND => alu::and(x, y),
        Command::OR => alu::or(x, y),
        Command::SAR => alu::sar(x, v),
        Command::ANDI => alu::and(x, v),
        Command::ORI => alu::or(x, v),
        Command::SHL => alu::shl(x, v),
        _ => 0,
    }
}

// The effect of a command.
#[tactic(auto, unfolding(spec::specs::Machines::effect_of, crate::specs::effects::CommandFields::FieldsInRange))]
fn command_effect(
    c: Command,
    view: ViewNumbers,
    regs: &[u32; Machine::REGISTERS],
    memory: &[u32],
) -> Effect
    requires { FieldsInRange c }
    ensures { result ≡ effect_of c (view_with view regs.now memory.now) }
{
    match c {
        Command::Nop => Effect::Go(alu::add(view.pc, 1)),
        Command::Halt => Effect::End(Status::Ended),
        Command::Plain(k, d, a, b, v) => {
            Effect::SetReg(d as usize, value(k, reg(regs, a), reg(regs, b), v as u32))
        }
        Command::Load(d, a) => load_effect(d as usize, reg(regs, a) as usize, memory),
        Command::Store(a, b) => store_effect(reg(regs, a) as usize, reg(regs, b), memory),
        Command::GoIf(a, b, c, v) => branch_target(
            alu::holds(c, reg(regs, a), reg(regs, b)),
            v as u32,
            view.pc,
        ),
        Command::GoReg(d, a, b, c) => jump_effect(
            alu::holds(c, reg(regs, a), reg(regs, b)),
            reg(regs, d),
            view,
            memory,
        ),
        Command::Look(d, v) => look(d as usize, view.cell, view.table, v as u32, memory),
        Command::StopIf(d) => stop_if(reg(regs, d), view.pc),
        Command::Keep(d) => store_effect(view.cell as usize, reg(regs, d), memory),
        Command::Event(v) => event(v as u32, view.free, view.left),
        Command::Invalid => Effect::End(Status::Faulted),
    }
}

// The effect of a word: decodes it first.
#[tactic(auto, using(crate::proofs::effects::Laws::sound_command))]
fn word_effect(
    w: u64,
    view: ViewNumbers,
    regs: &[u32; Machine::REGISTERS],
    memory: &[u32],
) -> Effect
    ensures { result ≡ effect_of (command_of w) (view_with view regs.now memory.now) }
{
    let c = command::command(w);
    command_effect(c, view, regs, memory)
}

// The effect of the word at pc, at index pc − B of the list. A pc below B wraps to an index past the list, so it faults too.
#[tactic(auto, unfolding(spec::specs::Machines::effect_of, spec::specs::Commands::fetch_of))]
pub fn next_effect(
    commands: &[u64],
    view: ViewNumbers,
    regs: &[u32; Machine::REGISTERS],
    memory: &[u32],
) -> Effect
    ensures { result ≡ effect_at commands.now (view_with view regs.now memory.now) }
{
    let base = view.base;
    let at = (view.pc as usize).wrapping_sub(base as usize);
    if at < commands.len() {
        return word_effect(commands[at], view, regs, memory);
    }
    Effect::End(Status::Faulted)
}
