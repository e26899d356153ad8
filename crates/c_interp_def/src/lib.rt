//! What is left to do of a source program's run: tasks, and their meaning by the source's own.
//! Promise: what a part of a program does is what the tasks do that it comes to, in their order.
//! Always: a meaning is made of the definitions of expressions, statements and calls alone.
#![tactic(auto)]

pub mod laws;
mod task;

pub use task::{ExprTask, Flow, Handler, Slot, Stage, StmtTask, Task};
