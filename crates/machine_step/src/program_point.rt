// The program point of a run: pc, status, and how many pairs and readings it has so far. The engine uses it too, with its index as pc.
ghost use Rattle.std.specs.Prelude.{◌≡◌, ◌+◌, ◌^◌, ◌<◌, slice_index};
ghost use Rattle.spec.specs.Machines.{next_pc, with_pair};
ghost use Rattle.machine_step.specs.program_point.ProgramPoints.{point_of};

use types::{Bundle, Ending, Status};

// How many commands a bundle has. It takes as many steps, and the next bundle is as many addresses away.
pub const BUNDLE_LENGTH: u32 = Bundle::LENGTH as u32;

// A run's state except registers, memory and log. In the engine, pc is the index of the next instruction.
#[derive(Clone, Copy)]
pub struct Point {
    pub pc: u32,
    pub status: Status,
    pub pairs: usize,
    pub used: usize,
}

// What a loop of steps leaves: the point where the run is, its ending, and how many steps it has taken. While the run goes on, the ending is spent (25).
#[derive(Clone, Copy)]
pub struct LoopExit {
    pub at: Point,
    pub ending: Ending,
    pub steps: u32,
}

impl Point {
    // The point at which a run starts.
    pub fn start(pc: u32) -> Point
        ensures { result ≡ point_of pc Status.Running 0 0 }
    {
        Point {
            pc,
            status: Status::Running,
            pairs: 0,
            used: 0,
        }
    }

    // The point at the next address, which wraps.
    pub fn next(mut self) -> Point
        ensures { result ≡ point_of (next_pc self.pc) self.status self.pairs self.used }
    {
        self.pc = self.pc.wrapping_add(1);
        self
    }

    pub fn jumped(mut self, to: u32) -> Point
        ensures { result ≡ point_of to self.status self.pairs self.used }
    {
        self.pc = to;
        self
    }

    pub fn ended(self, status: Status) -> Point
        ensures { result ≡ point_of self.pc status self.pairs self.used }
    {
        Point {
            pc: self.pc,
            status,
            pairs: self.pairs,
            used: self.used,
        }
    }

    // The point with one more pair in the log.
    pub fn ordered(self) -> Point
        requires { self.pairs < 2 ^ 62 }
        ensures { result ≡ point_of self.pc self.status (self.pairs + 1) self.used }
    {
        Point {
            pairs: self.pairs + 1,
            ..self
        }
    }

    // The point with one more pair in the log, for a reading that was taken.
    pub fn probed(self) -> Point
        requires { (self.pairs < 2 ^ 62) × (self.used < 2 ^ 63) }
        ensures { result ≡ point_of self.pc self.status (self.pairs + 1) (self.used + 1) }
    {
        Point {
            used: self.used + 1,
            ..self.ordered()
        }
    }

    // The point after an order: one more pair, at the next address. Written out: by `ordered` and `next` the engine takes 3 % more instructions.
    pub fn after_order(mut self) -> Point
        requires { self.pairs < 2 ^ 62 }
        ensures { result ≡ point_of (next_pc self.pc) self.status (self.pairs + 1) self.used }
    {
        self.pairs += 1;
        self.next()
    }

    // The point after a reading.
    pub fn after_reading(mut self) -> Point
        requires { (self.pairs < 2 ^ 62) × (self.used < 2 ^ 63) }
        ensures { result ≡ point_of (next_pc self.pc) self.status (self.pairs + 1) (self.used + 1) }
    {
        self.used += 1;
        self.after_order()
    }

    // Takes the next reading, and records it in the log as event v.
    pub fn record_reading(self, v: u32, readings: &[u32], log: &mut [u32]) -> u32
        requires { self.pairs < 2 ^ 62 }
        ensures { (result ≡ slice_index readings.now self.used)
            × (log.new ≡ with_pair log.old self.pairs v (slice_index readings.now self.used)) }
    {
        let x = buffers::cells::peek(readings, self.used);
        buffers::pairs::write_pair(log, self.pairs, v, x);
        x
    }
}
