//! The call of the program that shows: it carries out a command of its own, and tells how it
//! ended.
//! Promise: what stands on the output is of the source in the file, as its image is made; no file
//! changes.
//! Always: where memory ran out or the arguments are no command, nothing stands on the output.
#![tactic(auto)]

mod accepted;
pub mod bound_laws;
mod by_rank;
mod call;
mod calling;
mod chain;
mod cycles;
pub mod depth_laws;
mod finding;
mod frames;
mod listing;
mod refused;
mod shown;
mod telling;
mod text;

pub use accepted::accepted_text;
pub use call::view;
pub use finding::depths;
pub use refused::refused_text;
