//! The source's own run, defined or not, from an input to an output.
//! Promise: `interpret` ends as the definition of the run says, and the output has gained what the
//! run writes.
//! Always: calls and statements are kept on a list of its own, and not on the machine's stack.
#![tactic(auto)]

mod begin;
mod calls;
mod evaluate;
mod expression;
mod frame;
mod known;
mod machine;
mod nested;
mod operands;
mod part;
mod perform;
mod push;
mod run;
mod statement;
mod step;
mod stop;
mod streams;
mod turns;
mod variable;

pub use run::interpret;
pub use stop::Ending;
