//! The script of a session: its commands, read one by one from a source.
//! Promise: a command is given exactly where the next bytes are one, and a fault names the first
//! that is none.
//! Always: the source is asked for more only where a command lacks bytes.
#![tactic(auto)]

mod command;
mod fault;
pub mod laws;
mod line;
mod pieces;
mod reader;

pub use command::Command;
pub use fault::ScriptFault;
pub use reader::ScriptReader;
