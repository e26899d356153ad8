//! Common node elimination: of equal nodes of a region the first gives for all.
//! Promise: `apply` gives the changed lambda, and a changed lambda keeps its meaning in any
//! program. `sweep_fast` makes of an arena and a log what a sweep of the rule makes of the
//! lambda, and costs at most three looks for each value and each input of a node.
//! Always: `apply` takes no memory, and the rule on the list of nodes of a lambda is the rule on
//! the lambda. Where memory runs out in a sweep, the arena stands for the lambda after the logged
//! steps.
#![tactic(auto)]

// It stands here and not in `r_cne`: the laws that it rests on stand over that crate.

mod find;
pub mod laws;
mod rule;
mod sweep;
pub mod sweep_laws;

pub use rule::{applies, apply, can_replace};
pub use sweep::sweep_fast;
