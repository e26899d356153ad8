//! The compiler as one call: the phases composed, from a source to its file and to a row for each
//! function.
//! A row says what the recipe did to the function. File and rows are those of the definition, out
//! of memory apart.
//! Always: a fault is that of the phase that refuses the source.
#![tactic(auto)]

pub mod laws;
pub mod meaning_laws;
mod recipe;
mod rows;
pub mod run_laws;
mod source;
mod typed;

pub use recipe::recipe_of;
pub use source::{compile, compile_one};
pub use typed::{Compiled, compile_typed, file_of_items};
