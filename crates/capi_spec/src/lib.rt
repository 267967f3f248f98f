// Defines what each C function answers and leaves, in the numbers that a C host sees, with the claims about its calls. It has no code.
#![tactic(auto)]

pub mod engine;
