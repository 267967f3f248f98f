// Defines the types and named numbers that all crates share: layouts, policies, instructions, commands, machines, refusals and answers.
#![tactic(auto)]

ghost use Rattle.std.specs.Prelude.{◌≡◌};
ghost use Rattle.types.specs.declared.Ending.TheVariants.{Refused};
ghost use Rattle.types.specs.Names.{number_of, ending_number, status_number, ending_of, NamesStatus};
ghost use Rattle.types.specs.Results.{reject_at, answer_of, verdict_of};
ghost use Rattle.types.specs.Records.{layout_of, machine_of, machine_at, machine_refused, outcome_of};

use std::fmt;

// Where things lie in a drum's memory. U, SL, SH, M, P, S, B and Q are the paper's letters. Orders 0 to 7 have a ceiling each.
#[derive(Clone, Copy)]
pub struct Layout {
    pub size: u32,
    pub low: u32,
    pub high: u32,
    pub cell: u32,
    pub table: u32,
    pub states: u32,
    pub base: u32,
    pub landings: u32,
    pub ceilings: [u32; Layout::CEILINGS],
}

impl Layout {
    pub const MOST_CELLS: u32 = 4096;

    pub const MOST_STATES: u32 = 16;
    // How many cells hold the landing bits, and how many bits a cell has.
    pub const LANDING_CELLS: u32 = 32;

    pub const CELL_BITS: u32 = 32;
    // One ceiling for each order.
    pub const CEILINGS: usize = PolicyNumbers::ORDERS as usize;
    // A ceiling that limits nothing.
    pub const NO_LIMIT: u32 = 4294967295;

    pub fn new(
        size: u32,
        low: u32,
        high: u32,
        cell: u32,
        table: u32,
        states: u32,
        base: u32,
        landings: u32,
        ceilings: [u32; Layout::CEILINGS],
    ) -> Layout
        ensures { result ≡ layout_of size low high cell table states base landings ceilings }
    {
        Layout {
            size,
            low,
            high,
            cell,
            table,
            states,
            base,
            landings,
            ceilings,
        }
    }
}

// A policy's state count and start state. Its table, 16 bytes a state, and its landings are passed beside it as slices.
#[derive(Clone, Copy)]
pub struct PolicyNumbers {
    pub states: u32,
    pub start: u32,
}

impl PolicyNumbers {
    // In a table, this entry means that the event is not allowed. It is a byte of the paper's form of a policy.
    pub const NO_ARROW: u32 = 255;
    // Entries in one row of a table.
    pub const EVENTS: u32 = 16;
    // Events below this number are orders; the others are readings.
    pub const ORDERS: u32 = 8;
}

// The six fields of a word.
#[derive(Clone, Copy)]
pub struct Fields {
    pub kind: u64,
    pub d: u64,
    pub a: u64,
    pub b: u64,
    pub c: u64,
    pub v: u64,
}

// The largest value of each field of a kind; 0 for a field that it lacks.
#[derive(Clone, Copy)]
pub struct Limits {
    pub d: u64,
    pub a: u64,
    pub b: u64,
    pub c: u64,
    pub v: u64,
}

// A guest instruction. PLAIN covers the kinds SET to SAR; its fields are kind, d, a, b, v.
// A kind is a number and no enum: it is a field of a word, the definitions compute with it (`shape_with` adds `plain_step`), and SET to SAR are one range.
#[derive(Clone, Copy, Debug, PartialEq, Eq)]
pub enum Instr {
    HALT,
    PLAIN(u64, u64, u64, u64, u64),
    LOAD(u64, u64),
    STORE(u64, u64),
    GOIF(u64, u64, u64, u64),
    GOX(u64, u64, u64, u64),
    EVENT(u64),
}

impl Instr {
    // The most instructions of a routine, and how many bytes their count takes.
    pub const MOST: usize = 1023;

    pub const COUNT_BYTES: usize = 2;
    // The most bytes that one instruction takes.
    pub const MOST_BYTES: usize = 10;
    // The kind numbers. A plain instruction becomes the command whose number is its kind plus `PLAIN_STEP`.
    pub const KIND_HALT: u64 = 0;

    pub const KIND_SET: u64 = 1;

    pub const KIND_MOVE: u64 = 2;

    pub const KIND_ADD: u64 = 3;

    pub const KIND_SUB: u64 = 4;

    pub const KIND_AND: u64 = 5;

    pub const KIND_OR: u64 = 6;

    pub const KIND_SAR: u64 = 7;

    pub const KIND_LOAD: u64 = 8;

    pub const KIND_STORE: u64 = 9;

    pub const KIND_GOIF: u64 = 10;

    pub const KIND_GOX: u64 = 11;

    pub const KIND_EVENT: u64 = 12;

    pub const PLAIN_STEP: u64 = Command::SET - Instr::KIND_SET;
}

// A command of the machine. Plain covers the kinds SET to SHL; its fields are kind, d, a, b, v. A kind is a number, as a guest's is.
// Invalid is any word that is no command. It is a case and no None because `command_of` and `effect_of` of the specs give every word a command and an effect.
#[derive(Clone, Copy, Debug, PartialEq, Eq)]
pub enum Command {
    Nop,
    Halt,
    Plain(u64, u64, u64, u64, u64),
    Load(u64, u64),
    Store(u64, u64),
    GoIf(u64, u64, u64, u64),
    GoReg(u64, u64, u64, u64),
    Look(u64, u64),
    StopIf(u64),
    Keep(u64),
    Event(u64),
    Invalid,
}

impl Command {
    // The kind numbers, and how many there are.
    pub const NOP: u64 = 0;

    pub const HALT: u64 = 1;

    pub const SET: u64 = 2;

    pub const MOVE: u64 = 3;

    pub const ADD: u64 = 4;

    pub const SUB: u64 = 5;

    pub const AND: u64 = 6;

    pub const OR: u64 = 7;

    pub const SAR: u64 = 8;

    pub const ANDI: u64 = 9;

    pub const ORI: u64 = 10;

    pub const SHL: u64 = 11;

    pub const LOAD: u64 = 12;

    pub const STORE: u64 = 13;

    pub const GOIF: u64 = 14;

    pub const GOXR: u64 = 15;

    pub const LOOK: u64 = 16;

    pub const STOPIF: u64 = 17;

    pub const KEEP: u64 = 18;

    pub const EVENT: u64 = 19;

    pub const KINDS: u64 = Command::EVENT + 1;
}

// The four command words of one instruction.
#[derive(Clone, Copy)]
pub struct Bundle {
    pub words: [u64; Bundle::LENGTH],
}

impl Bundle {
    // The commands of a bundle, and how many follow its first.
    pub const LENGTH: usize = 4;

    pub const TAIL: usize = Bundle::LENGTH - 1;
    // The most bundles of a list, and how many commands they have.
    pub const MOST: usize = 1024;

    pub const MOST_COMMANDS: usize = Bundle::LENGTH * Bundle::MOST;
    // Shifting an instruction's number by this gives the distance of its bundle from the base.
    pub const SHIFT: u64 = 2;
}

// How far a machine or an engine has come. `status as u32` is the number that a host sees.
#[derive(Clone, Copy, Debug, PartialEq, Eq)]
pub enum Status {
    Running = 0,
    Ended = 1,
    Stopped = 2,
    Faulted = 3,
    Strayed = 4,
}

impl From<Status> for u32 {
    ghost from_gives = { λ status n. n ≡ status_number status };

    fn from(status: Status) -> u32 {
        status as u32
    }
}

// A number that no status has.
#[derive(Clone, Copy, Debug, PartialEq, Eq)]
pub struct UnknownStatus(pub u32);

impl TryFrom<u32> for Status {
    type Error = UnknownStatus;

    ghost try_from_gives = { NamesStatus };

    fn try_from(number: u32) -> Result<Status, UnknownStatus> {
        match number {
            0 => Ok(Status::Running),
            1 => Ok(Status::Ended),
            2 => Ok(Status::Stopped),
            3 => Ok(Status::Faulted),
            4 => Ok(Status::Strayed),
            _ => Err(UnknownStatus(number)),
        }
    }
}

// The machine's record: what is carried from run to run, except memory.
#[derive(Clone, Copy)]
pub struct Machine {
    pub regs: [u32; Machine::REGISTERS],
    pub pc: u32,
    pub status: Status,
}

impl Machine {
    // The register that no guest field can name. Bundles use it for masked addresses and for the policy's entry. It is the last one.
    pub const HIDDEN: usize = 15;

    pub const REGISTERS: usize = Machine::HIDDEN + 1;

    pub fn from_parts(regs: [u32; Machine::REGISTERS], pc: u32, status: Status) -> Machine
        ensures { result ≡ machine_of regs pc status }
    {
        Machine { regs, pc, status }
    }

    // The record that installing yields: all registers 0, pc at the base, running.
    pub fn new(base: u32) -> Machine
        ensures { result ≡ machine_at base }
    {
        Machine::from_parts([0; Machine::REGISTERS], base, Status::Running)
    }

    // The record that a refused installation yields: zeros, and faulted.
    pub fn refused() -> Machine
        ensures { result ≡ machine_refused }
    {
        Machine::from_parts([0; Machine::REGISTERS], 0, Status::Faulted)
    }
}

// Why a call was refused. `refusal as u8` is its number in the paper's table. Those from 14 on come from the change requests, the others from document 01.
#[derive(Clone, Copy, Debug, PartialEq, Eq)]
pub enum Refusal {
    Short = 1,
    Foreign = 2,
    UnknownKind = 3,
    OffRange = 4,
    Oversize = 5,
    Trailing = 6,
    BadLayout = 7,
    BadLanding = 8,
    SmallOutput = 9,
    BadPolicy = 10,
    BadBundle = 11,
    BadCount = 12,
    BadBase = 13,
    BadLandings = 14,
    TooManyStates = 15,
    BadDrawing = 16,
    BadPair = 17,
    NotForward = 18,
}

impl From<Refusal> for u8 {
    ghost from_gives = { λ refusal n. n ≡ number_of refusal };

    fn from(refusal: Refusal) -> u8 {
        refusal as u8
    }
}

// A refusal, and the instruction or bundle that it is about, or 0.
#[derive(Clone, Copy, Debug, PartialEq, Eq)]
pub struct Reject {
    pub refusal: Refusal,
    pub place: usize,
}

impl Reject {
    // A refusal at an instruction or a bundle.
    pub fn at(refusal: Refusal, place: usize) -> Reject
        ensures { result ≡ reject_at refusal place }
    {
        Reject { refusal, place }
    }
}

// A refusal without a place.
impl From<Refusal> for Reject {
    ghost from_gives = { λ refusal e. e ≡ reject_at refusal 0 };

    fn from(refusal: Refusal) -> Reject {
        Reject { refusal, place: 0 }
    }
}

// What a host sees of a result: the refusal's number or 0, and a place. On success the place is how much was written.
#[derive(Clone, Copy, Debug, PartialEq, Eq)]
pub struct Answer {
    pub number: u8,
    pub place: usize,
}

impl Answer {
    // The number of a success.
    pub const TAKEN: u8 = 0;
}

impl From<Result<usize, Reject>> for Answer {
    ghost from_gives = { λ r a. a ≡ answer_of r };

    fn from(outcome: Result<usize, Reject>) -> Answer {
        match outcome {
            Ok(place) => Answer {
                number: Answer::TAKEN,
                place,
            },
            Err(reject) => Answer {
                number: u8::from(reject.refusal),
                place: reject.place,
            },
        }
    }
}

impl From<Result<(), Reject>> for Answer {
    ghost from_gives = { λ r a. a ≡ verdict_of r };

    fn from(outcome: Result<(), Reject>) -> Answer {
        Answer::from(outcome.map(|()| 0usize))
    }
}

// The number and the place.
impl fmt::Display for Answer {
    fn fmt<W: fmt::Write>(&self, f: &mut fmt::Formatter<W>) -> fmt::Result {
        write!(f, "{} {}", self.number, self.place)
    }
}

// How a run ends, by the numbers of the paper's table. No landing (26) comes from a change request, the others from document 01.
// Refused means that layout or memory was refused, as bad layout (7). It is an ending because `run_of` of the specs answers it as one.
#[derive(Clone, Copy, Debug, PartialEq, Eq)]
pub enum Ending {
    Done = 20,
    NoArrow = 21,
    Fault = 22,
    LogFull = 23,
    Silent = 24,
    Spent = 25,
    NoLanding = 26,
    Refused = 7,
}

impl From<Ending> for u8 {
    ghost from_gives = { λ ending n. n ≡ ending_number ending };

    fn from(ending: Ending) -> u8 {
        ending as u8
    }
}

// The ending of a run that did not pause.
impl From<Status> for Ending {
    ghost from_gives = { λ status ending. ending ≡ ending_of status };

    fn from(status: Status) -> Ending {
        match status {
            Status::Running => Ending::Spent,
            Status::Ended => Ending::Done,
            Status::Stopped => Ending::NoArrow,
            Status::Faulted => Ending::Fault,
            Status::Strayed => Ending::NoLanding,
        }
    }
}

// What a run answers: its ending, and how many steps it took, pairs it recorded and readings it used.
#[derive(Clone, Copy)]
pub struct RunAnswer {
    pub ending: Ending,
    pub steps: u32,
    pub pairs: usize,
    pub used: usize,
}

impl RunAnswer {
    // Each recorded pair takes two log cells: event and value.
    pub const PAIR_CELLS: usize = 2;
}

// A run's answer, and the record after the run.
#[derive(Clone, Copy)]
pub struct Outcome {
    pub machine: Machine,
    pub answer: RunAnswer,
}

impl Outcome {
    // A refused run: the record as it was, bad layout (7) and three zeros.
    pub fn refused(machine: Machine) -> Outcome
        ensures { result ≡ outcome_of machine Refused 0 0 0 }
    {
        Outcome {
            machine,
            answer: RunAnswer {
                ending: Ending::Refused,
                steps: 0,
                pairs: 0,
                used: 0,
            },
        }
    }
}

// What one word does to a machine: jump, set a register or a cell, record an order, take a reading, end with a status, or pause.
#[derive(Clone, Copy, Debug, PartialEq, Eq)]
pub enum Effect {
    Go(u32),
    SetReg(usize, u32),
    SetCell(usize, u32),
    Order(u32),
    Probe(u32),
    End(Status),
    Wait(Ending),
}
