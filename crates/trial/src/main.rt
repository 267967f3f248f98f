// Loads the routine on standard input, with document 01's layout and policy, and runs it once.
// Prints the answer and, if it is 0, the events and how the run ended. Fails where the input or the output does.
#![tactic(auto)]

pub mod input;

ghost use Rattle.std.specs.Prelude.{◌*◌, ◌≤◌, length};
ghost use Rattle.types.specs.Names.{pair_cells};

use lines::{BASE, drum, end, print};
use sandbox::LentPolicy;
use std::io;
use types::{Answer, Bundle, Instr, Layout, Machine, PolicyNumbers, RunAnswer};

// The cells of document 01's layout.
const CELLS: usize = 1024;

// An event that is not allowed, as a byte of a table.
const NO_ARROW: u8 = PolicyNumbers::NO_ARROW as u8;

// The bytes of the longest routine.
const LONGEST: usize = Instr::COUNT_BYTES + Instr::MOST_BYTES * Instr::MOST;

fn print_answer(rt: &impl Print, number: u8) -> io::Result<()> {
    print(rt, b"answer ", u64::from(number))?;
    end(rt)
}

// Prints the pairs at the start of a log, a line each.
fn print_events(rt: &impl Print, log: &[u32], pairs: usize) -> io::Result<()>
    requires { pair_cells * pairs ≤ length log.now }
{
    for pair in log[..RunAnswer::PAIR_CELLS * pairs].chunks_exact(RunAnswer::PAIR_CELLS) {
        print(rt, b"event ", u64::from(pair[0]))?;
        print(rt, b" ", u64::from(pair[1]))?;
        end(rt)?;
    }
    Ok(())
}

// Runs a loaded routine once. The state cell is cell 0.
fn run(
    rt: &impl Print,
    layout: Layout,
    commands: &[u64],
    start: Machine,
    memory: &mut [u32; CELLS],
) -> io::Result<()> {
    let readings = [1800u32, 1950, 2100];
    let mut log = [0u32; 64];
    let out = machine::run_value(layout, commands, start, memory, 1000, &readings, &mut log);
    let a = out.answer;
    print_events(rt, &log, a.pairs)?;
    print(rt, b"end ", u64::from(u8::from(a.ending)))?;
    print(rt, b" steps ", u64::from(a.steps))?;
    print(rt, b" state ", u64::from(memory[0]))?;
    end(rt)
}

// Every instruction is a landing.
fn all_landings() -> [u32; Bundle::MOST] {
    let mut xs = [0u32; Bundle::MOST];
    for (i, x) in xs.iter_mut().enumerate() {
        *x = i as u32;
    }
    xs
}

fn try_routine(rt: &impl Print, bytes: &[u8]) -> io::Result<()> {
    let layout = drum(BASE);
    // In state 0 all is allowed, and event 2, the door, leads to state 1. In state 1 event 0, gas, is not allowed.
    let table = [
        0u8, 0, 1, 0, 0, 0, 0, 0, 0, 0, 0, 0, 0, 0, 0, 0, NO_ARROW, 1, 1, 1, 1, 1, 1, 1, 1, 1, 1,
        1, 1, 1, 1, 1,
    ];
    let policy = LentPolicy {
        numbers: PolicyNumbers {
            states: 2,
            start: 0,
        },
        table: &table,
        landings: &all_landings(),
    };
    let mut commands = [0u64; Bundle::MOST_COMMANDS];
    let mut memory = [0u32; CELLS];
    match sandbox::load(layout, policy, bytes, &mut commands, &mut memory) {
        Err(reject) => print_answer(rt, u8::from(reject.refusal)),
        Ok(loaded) => {
            print_answer(rt, Answer::TAKEN)?;
            run(
                rt,
                layout,
                &commands[..loaded.commands],
                loaded.machine,
                &mut memory,
            )
        }
    }
}

// Reads one byte more than the longest routine has, so that a longer input is refused.
fn main(rt: HostRuntime) -> io::Result<()> {
    let mut bytes = [0u8; LONGEST + 1];
    let mut stdin = rt.stdin();
    let n = input::read_full(&mut stdin, &mut bytes)?;
    try_routine(&rt, &bytes[..n])
}
