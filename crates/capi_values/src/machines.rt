// Turns a C host's array of numbers into a machine's record, and back.
ghost use Rattle.std.specs.Prelude.{◌≡◌};
ghost use Rattle.types.specs.Names.{registers};
ghost use Rattle.capi_spec.specs.Numbers.{numbers_after, machine_from, machine_to};

use crate::records::{TRAILER, read_record, store_record};
use types::Machine;

// How many numbers a machine has.
pub const MACHINE_RECORD: usize = Machine::REGISTERS + TRAILER;

pub fn machine_of(xs: &[u32; MACHINE_RECORD]) -> Machine
    ensures { result ≡ machine_from xs.now }
{
    let mut regs = [0u32; Machine::REGISTERS];
    let status = read_record(xs, &mut regs);
    Machine::from_parts(regs, xs[Machine::REGISTERS], status)
}

// Stores in its record the machine that a run left.
pub fn store_machine(xs: &mut [u32; MACHINE_RECORD], m: Machine)
    ensures { xs.new ≡ numbers_after registers xs.old (machine_to m) }
{
    store_record(xs, &m.regs, m.pc, m.status);
}

// Sets a record to a machine. It is stored over zeros, because their status, running, is valid.
pub fn put_machine(xs: &mut [u32; MACHINE_RECORD], m: Machine)
    ensures { xs.new ≡ machine_to m }
{
    *xs = [0; MACHINE_RECORD];
    store_machine(xs, m);
}

// A machine as numbers.
pub fn record_of(m: Machine) -> [u32; MACHINE_RECORD]
    ensures { result ≡ machine_to m }
{
    let mut xs = [0u32; MACHINE_RECORD];
    put_machine(&mut xs, m);
    xs
}
