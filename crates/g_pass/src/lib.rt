//! Steps and sweeps of a rule over a lambda, and recipes of sweeps.
//! Promise: a text is read as exactly the recipe that it is the text of, and a step or a sweep
//! makes of a lambda what the definition makes.
//! Always: out of memory, a swept lambda is the one after the logged steps.
#![tactic(auto)]

mod callee;
mod fast;
pub mod laws;
pub mod meaning_laws;
mod names;
mod recipe;
mod replay;
mod replayed_sweeps;
mod rule_step;
mod sites;
pub mod step_laws;
mod sweeps;

pub use recipe::Recipe;
pub use replay::replayed;
pub use replayed_sweeps::{SweepCount, sweep_counts};
pub use rule_step::step;
pub use sweeps::{optimise, sweep};
