// One step of the machine: decides the effect of the word at pc and applies it. Also tells how a run ends.
#![tactic(auto)]

pub mod apply;
pub mod effects;
pub mod events;
pub mod installed;
pub mod landings;
pub mod program;
pub mod program_point;
pub mod registers;
pub mod view;
