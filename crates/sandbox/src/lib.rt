// Joins the parts: loads a routine's bytes into an installed machine, then runs or steps it.
#![tactic(auto)]

mod answers;
pub mod loading;
mod writing;

pub use crate::loading::load;
pub use installer::LentPolicy;
pub use machine_lent::{run, step};
