//! Inlining: a copy of the called function's body in the place of a call.
//! Promise: `apply` gives the changed lambda, which keeps its meaning in any program that has the
//! callee. What the sweep makes, and its steps, are those of the rule at each node of the lambda,
//! one after the other. A call takes the first of the callees that has its number.
//! Always: out of memory, the lambda is as it was.
#![tactic(auto)]

mod called;
mod callees;
mod inputs;
pub mod laws;
mod node;
mod room;
mod rule;
mod sweep;
pub mod walk_laws;

pub use called::{called_at, called_by};
pub use node::inlined_node;
pub use rule::{applies, apply};
pub use sweep::sweep_fast;
