//! The linear code of a lambda: the sequencing of its regions, and its laws.
#![tactic(auto)]

mod choices;
pub mod laws;
mod loops;
mod moves;
mod ops;
mod ports;
mod regions;
mod scope;
mod sequencing;
mod writer;

pub use sequencing::sequence;
