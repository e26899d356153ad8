//! The laws by which linear code does what its lambda does, and is closed.
//! Nothing in it runs.
#![tactic(auto)]

pub mod laws;
