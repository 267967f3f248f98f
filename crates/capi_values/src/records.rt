// Reads registers and status of a machine or an engine from an array of numbers, and stores them there.
ghost use Rattle.std.specs.Prelude.{◌≡◌, ◌+◌, length, take};
ghost use Rattle.capi_spec.specs.Numbers.{status_from, trailer, record_to, status_in, numbers_after};

use buffers::stores::store;
use types::Status;

// After the registers come pc or index, then the status.
pub const TRAILER: usize = 2;

// The status of a number. One that is no status counts as faulted.
pub fn status_of(x: u32) -> Status
    ensures { result ≡ status_from x }
{
    Status::try_from(x).unwrap_or(Status::Faulted)
}

// Copies the registers into `regs`, and returns the status. A number that is no status counts as faulted.
#[tactic(auto, using(crate::proofs::records::Records::front, crate::proofs::records::Records::registers_of))]
pub fn read_record(xs: &[u32], regs: &mut [u32]) -> Status
    requires { length xs.now ≡ length regs.old + trailer }
    ensures registers { regs.new ≡ take (length regs.old) xs.now }
    ensures status { result ≡ status_from (status_in (length regs.old) xs.now) }
{
    let n = regs.len();
    let last = n + 1;
    store(regs, 0, &xs[..n]);
    status_of(xs[last])
}

// Stores the numbers after a run. If the old status number is no status, nothing was run and all stays as it was.
#[tactic(auto, using(crate::proofs::records::Records::room, crate::proofs::records::Records::is_status, crate::proofs::records::Records::no_status))]
pub fn store_record(xs: &mut [u32], regs: &[u32], at: u32, status: Status)
    requires { length xs.old ≡ length regs.now + trailer }
    ensures { xs.new ≡ numbers_after (length regs.now) xs.old (record_to regs.now at status) }
{
    let n = regs.len();
    let last = n + 1;
    if Status::try_from(xs[last]).is_ok() {
        store(xs, 0, regs);
        xs[n] = at;
        xs[last] = u32::from(status);
    }
}
