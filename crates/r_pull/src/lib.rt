//! Pull: a node that one Gamma alone uses moves into its regions.
//! Promise: `apply` gives the changed lambda, and a changed lambda keeps its meaning in any
//! program. What the sweep makes, and its steps, are those of the rule at each node of the
//! lambda, from the last to the first, one after the other.
//! Always: out of memory, the lambda is as it was.
#![tactic(auto)]

mod count;
mod counts;
mod fill;
mod find;
mod into;
pub mod laws;
mod plan;
mod put;
mod reads;
mod rule;
mod sweep;
mod users;
pub mod walk_laws;
mod walker;

pub use into::{Moved, pull_into};
pub use rule::{applies, apply};
pub use sweep::sweep_fast;
