//! The parser's tokens, and the parser of expressions.
//! The words for what is ahead stand for nonterminals and productions of the grammar. The tokens
//! are searched as a whole for keywords that are left out, and for nesting that is too deep.
//! Always: recursion is bounded by the fuel that is passed.
#![tactic(auto)]

mod ahead;
mod expressions;
mod fault;
mod held;
mod left_out;
mod literals;
mod nesting;
mod operators;
mod specifiers;
mod tokens;

pub use ahead::{BaseKeyword, ExternalStart, LabelStart, SimpleStart, SpecStart, StmtStart};
pub use expressions::{dimensions, expression, operand};
pub use fault::Fault;
pub use left_out::first_left_out;
pub use nesting::first_too_deep;
pub use operators::{OperandStart, Precedence, Suffix, right_of};
pub use specifiers::{plain_specifier, qualifier, specifier, stars};
pub use tokens::Tokens;
