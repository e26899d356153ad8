//! The arguments of the command line: what command they are, or that they are none. The command is
//! the defined one, whatever the arguments, and no arguments but those of the definition are a
//! command.
#![tactic(auto)]

mod arguments;
pub mod laws;
pub mod numbers;
pub mod reader;

pub use arguments::{Command, parse_command};
