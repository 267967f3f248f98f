// Document 01's examples as theorems, and runs that satisfy the premises of the claims, so that these are not empty. It has no code.
#![tactic(auto)]

pub mod engine;
