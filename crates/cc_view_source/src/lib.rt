//! What is shown of a source: its text, its steps and its graphs, and the command line for it.
//! Promise: a lambda that is drawn is the answer, or what the steps make of the lambda as built.
//! Both are those of the image of the source under the recipe. The sweeps are those that make the
//! answer of the function, each in its numbers.
//! Always: no arguments but those of the definition are a command. Functions are in source order,
//! each once, and sweeps in the order of the recipe. A fault is that of the phase that refuses the
//! source, out of memory apart.
#![tactic(auto)]

mod all;
mod arguments;
mod callees;
pub mod command_laws;
pub mod laws;
mod making;
mod names;
mod one;
mod showing;
pub mod table_laws;
mod tables;
mod text;

pub use all::graph_of_all;
pub use arguments::{Command, Drawing, parse_command};
pub use callees::callees_at;
pub use making::{Made, make};
pub use names::{function_name, names_at};
pub use one::graph_of_one;
pub use tables::tables_of;
