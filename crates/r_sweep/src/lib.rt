//! A sweep of a rule over an arena.
//! Promise: all uses of an origin in a region move, and an exit variable goes with its results.
//! Always: a change at one node of a list is the change of the region that holds the node. Each
//! use that moves, and each output or result that goes, costs one look; no memory is taken.
#![tactic(auto)]

mod exits;
pub mod laws;
mod moving;

pub use exits::{place_in, remove_exit};
pub use moving::move_uses;
