//! Unrolling: a turn of a loop becomes up to two.
//! Promise: `apply` gives the changed lambda, and a changed lambda keeps its meaning in any
//! program. What the sweep makes, and its steps, are those of the rule at each node of the
//! lambda, one after the other.
//! Always: out of memory, the lambda is as it was.
#![tactic(auto)]

mod find;
mod follow;
pub mod laws;
mod node;
mod rule;
mod sweep;
mod turn;
pub mod walk_laws;

pub use node::{UnrolledNode, unrolled_node};
pub use rule::{applies, apply};
pub use sweep::sweep_fast;
