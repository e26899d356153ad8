//! The graph of a program: its lambdas, globals and names, and the limits of its values.
//! Promise: what is made is what the definition makes, and a limit is passed exactly where a
//! count passes it.
//! Always: a limit is decided before a node is made.
#![tactic(auto)]

mod body;
mod declaration;
mod globals;
mod jumps;
mod labels;
mod lambda;
mod objects;
mod omega;
mod params;
mod passed;
mod program;
mod select;
mod statements;
mod straight_body;

pub use body::build_body;
pub use declaration::{declare, store_object};
pub use globals::build_globals;
pub use lambda::build_lambda;
pub use objects::{Declared, Objects, number_after};
pub use omega::{BuildFault, build};
pub use passed::{Passed, limit_passed};
pub use program::{build_lambdas, build_names};
pub use statements::{list, statement};
