//! One walk over a lambda that tries a rule at each node.
//! What it makes is exactly the defined walk.
//! Always: the old nodes are only read, and a walk takes time n log n beside what the rule takes.
#![tactic(auto)]

mod counts;
pub mod laws;
mod moves;
mod rule;
mod uses;
mod walker;
mod words;

pub use moves::{Moves, Now};
pub use rule::{New, Opening, Said, WalkRule, becomes_or_stays};
pub use uses::{Uses, uses_of};
pub use walker::walk;
pub use words::Words;
