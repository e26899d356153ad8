//! The laws that templates do linear code on the machine, with calls and objects.
//! Here is also the law that the machine keeps the behaviour of a program. Nothing in it runs.
#![tactic(auto)]

pub mod global_laws;
pub mod laws;
