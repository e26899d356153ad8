//! The parser: the one syntax tree that the tokens spell, or the first wrong token.
//! Always: recursion is bounded by the nesting, 200.
#![tactic(auto)]

mod declaration;
mod external;
mod fault;
pub mod laws;
mod parser;
mod statement;

pub use fault::ParseFault;
pub use parser::parse;
