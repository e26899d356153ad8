//! Push: a node of arguments alone moves out of a Gamma or a Theta.
//! Promise: `apply` gives the changed lambda, and a changed lambda keeps its meaning in any
//! program. What the sweep makes, and its steps, are those of the rule at each node of the
//! lambda, one after the other.
//! Always: out of memory, the lambda is as it was.
#![tactic(auto)]

mod carry;
mod exit;
mod find;
mod grow;
pub mod laws;
mod leaving;
mod left;
mod now;
mod push;
mod rule;
mod staying;
mod sweep;
pub mod walk_laws;
mod walker;

pub use rule::{applies, apply};
pub use sweep::sweep_fast;
