//! The graph of expressions, in a builder that keeps the nodes with open regions on a stack of its
//! own.
//! Promise: what is made is what the definition makes.
//! Always: no list of nodes is copied.
#![tactic(auto)]

mod builder;
mod choices;
mod expression;
mod operations;
mod places;
mod variables;

pub use builder::{Body, Builder};
pub use choices::RegionOrder;
pub use operations::access_width;
pub use variables::InScope;
