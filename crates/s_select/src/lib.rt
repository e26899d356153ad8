//! The instructions of linear code over places, a template for each.
//! Promise: `select` gives exactly the items that specs/Templates.antt defines. `line_size` is
//! the size of the items that selection gives for the line, without making them. It takes no
//! memory, and time linear in the names of the line.
#![tactic(auto)]

mod frames;
mod function;
mod instructions;
pub mod laws;
mod location;
mod objects;
mod operands;
mod selecting;
mod sizes;
mod templates;

pub use selecting::select;
pub use sizes::{Function, line_size, offsets_from};
