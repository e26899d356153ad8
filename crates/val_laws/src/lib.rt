//! Laws of operations, of values, of memory, of answers and of runs.
#![tactic(auto)]

pub mod laws;
