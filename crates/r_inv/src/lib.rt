//! Invariant value redirection: what a Gamma or a Theta passes on is read where it comes from.
//! Promise: `apply` gives the changed lambda, which keeps its meaning in any program.
//! `sweep_fast` makes of an arena and a log what a sweep of the rule makes of the lambda, and
//! costs at most three looks for each value and each input of a node.
//! Always: out of memory, the lambda is as it was. The rule on the list of nodes of a lambda is
//! the rule on the lambda. Where memory runs out in a sweep, the arena stands for the lambda after
//! the logged steps.
#![tactic(auto)]

// It stands here and not in `r_inv`: the laws that it rests on stand over that crate.

mod carried;
mod carried_sweep;
mod find;
mod gamma;
pub mod laws;
mod moving;
mod plan;
mod rule;
mod sweep;
pub mod sweep_laws;
mod theta;

pub use find::can_redirect;
pub use rule::{applies, apply};
pub use sweep::sweep_fast;
