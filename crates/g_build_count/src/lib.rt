//! How many values the graph of a function has, counted before it is made and without memory.
#![tactic(auto)]

mod declaration;
mod exits;
mod expression;
mod function;
mod jumps;
mod loops;
mod operations;
mod scope;
mod statement;
mod straight;
mod switch;

pub use exits::Leaves;
pub use function::{count, params_of};
pub use jumps::{body_jumps, is_return, items_follow};
pub use switch::ends_segment;
