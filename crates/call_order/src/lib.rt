//! Functions that call each other as units, and the units' ranks.
//! Promise: `units` gives exactly the units and ranks that specs/Units.antt defines by paths of
//! calls. No contract says that it takes time and memory linear in functions and calls, and does
//! not recurse.
//! Always: a callee outside the unit has a smaller rank.
#![tactic(auto)]

mod answer;
mod finding;
mod known;
pub mod laws;
mod search;
mod stages;

pub use answer::Units;
pub use finding::units;
pub use known::all_known;
