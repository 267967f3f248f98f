// The C interface of include/hemdroas.h: a module for each part. Functions take numbers, arrays and slices.
#![tactic(auto)]

pub mod bytes;
pub mod commands;
pub mod determinise;
pub mod engine_run;
pub mod forward_class;
pub mod installing;
pub mod loading;
pub mod merge;
pub mod precedence;
pub mod running;
pub mod table_words;
