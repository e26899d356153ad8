//! Dead node elimination: a node or variables that nothing uses go.
//! Promise: `apply` gives the changed lambda, which keeps its meaning in any program.
//! `sweep_fast` makes of an arena and a log what a sweep of the rule makes of the lambda, and
//! costs at most three looks for each value and each input of a node.
//! Always: out of memory, the lambda is as it was. Where memory runs out in a sweep, the arena
//! stands for the lambda after the logged steps.
#![tactic(auto)]

// It stands here and not in `r_dne`: the laws that it rests on stand over that crate.

mod find;
mod gamma;
mod gamma_sweep;
mod judging;
pub mod laws;
mod node;
mod plan;
mod rule;
mod sweep;
pub mod sweep_laws;
mod theta;
mod theta_sweep;

pub use find::can_eliminate;
pub use rule::{applies, apply};
pub use sweep::sweep_fast;
