// One instruction of the engine: decides its effect and applies it.
#![tactic(auto)]

pub mod apply;
pub mod effects;
pub mod events;
pub mod fetch;
pub mod fields;
pub mod jumps;
pub mod plan;
pub mod sight;
