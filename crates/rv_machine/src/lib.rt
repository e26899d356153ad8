//! The machine that runs RV32IM executables, as a definition and as the program that does it.
//! It has registers, memory by segments with flags, and three environment calls.
//! Promise: each step does what specs/Machine.antt says of the instruction at pc, and a run is
//! that many steps.
//! Always: register x0 is 0; an ended run stays ended.
#![tactic(auto)]

pub mod behaviour_laws;
mod block;
mod execute;
pub mod laws;
mod machine;
mod memory;
pub mod memory_laws;
mod run;
pub mod segment_laws;
pub mod standing_laws;
mod step;
mod stop;
mod text;
mod words;

pub use machine::Machine;
pub use stop::Stop;
