//! Inversion: a loop that tests first becomes the test and, where it holds, a loop that tests
//! last.
//! A loop that tests last does so after each turn.
//! Promise: `apply` gives the changed lambda, which keeps its meaning in any program. What the
//! sweep makes, and its steps, are those of the rule at each node of the lambda, one after the
//! other.
//! Always: out of memory, the lambda is as it was.
#![tactic(auto)]

mod compose;
mod find;
mod form;
pub mod laws;
mod made;
mod node;
mod part;
mod room;
mod rule;
mod sweep;
pub mod walk_laws;

pub use node::inverted_node;
pub use rule::{applies, apply};
pub use sweep::sweep_fast;
