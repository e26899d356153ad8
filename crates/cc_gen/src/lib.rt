//! Generated C programs, large ones of a given number of functions. What is in a function is drawn
//! by a linear congruential generator; the text is written in chunks of 4,096 bytes. It is exactly
//! the defined text, and a failure comes only where the sink's count of faults increased.
#![tactic(auto)]

mod chunks;
mod draws;
mod pieces;
mod program;

pub use program::generate;
