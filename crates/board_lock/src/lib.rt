//! The lock of a board that several workers drive, by tickets, and their seats.
//! Whatever the threads do, the history kept under it is one that a single thread could have made,
//! and the calls of each seat stand in it, each once and in order. Promise: the contracts of the
//! calls of `Shared`. No progress is promised.
//! Always: there is one legal history, of which each seat has seen a beginning.
#![tactic(auto)]

mod shared;
mod steps;
mod threads;
mod view;

pub use shared::{Lock, Shared};
pub use threads::crosses_threads;
pub use view::{OneHistory, Seat, View};
