// What a run only reads.
use types::Layout;

// A list of commands, the layout under which it runs, and the readings that it is given.
#[derive(Clone, Copy)]
pub struct Program<'a> {
    pub layout: &'a Layout,
    pub commands: &'a [u64],
    pub readings: &'a [u32],
}
