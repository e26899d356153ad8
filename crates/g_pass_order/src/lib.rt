//! Which functions of a list call which, in what order their lambdas are optimised, and the deps
//! of each.
//! Promise: the order is the defined one.
//! Always: an order is the only one of its list.
#![tactic(auto)]

mod answer;
mod calls;
mod deps;
pub mod laws;
pub mod order_laws;
mod ordering;

pub use answer::{Order, above_all};
pub use ordering::order;
