//! Constant folding: a node whose inputs are constants becomes what it gives.
//! Promise: `apply` gives the folded lambda, and a folded lambda keeps its meaning in any
//! program. What the sweep makes, and its steps, are those of the rule at each node of the
//! lambda, one after the other.
//! Always: out of memory, the lambda is as it was.
#![tactic(auto)]

mod edit;
pub mod laws;
mod plan;
mod replacement;
mod rule;
mod said;
mod sweep;
pub mod walk_laws;
mod walk_plan;

pub use plan::{Plan, operand_plan, operands_plan};
pub use replacement::{chosen_place, has_one_turn};
pub use rule::{applies, apply, can_fold};
pub use sweep::sweep_fast;
