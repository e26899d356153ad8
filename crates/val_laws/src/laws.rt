//! Laws of words, values, memory, answers and runs, for the proofs of the crates above: each is the
//! contract of a function that does nothing.

pub mod answers;
pub mod memory;
pub mod runs;
pub mod values;
