//! Lambdas as a list of nodes in pre-order, each with the place where it stands, as data.
//! Promise: such a list is made of a lambda, and the lambda of such a list, at two looks a content.
#![tactic(auto)]

mod build;
mod flatten;
mod rows;

pub use build::region_of;
pub use flatten::rows_of;
pub use rows::{Row, RowRegion, Rows};
