//! What an operator makes of typed operands, and the value of a constant expression. There is one
//! call for an operator or a family of operators, for null pointer constants and for conversions.
//! Each answer is that of the definition, and none where the operator does not take the operands.
#![tactic(auto)]

mod arithmetic;
mod assignments;
mod binary_operators;
mod casts;
mod commas;
mod compounds;
mod conditionals;
mod constant;
mod conversion;
mod elements;
mod form;
mod logical;
mod members;
mod operands;
mod pointer;
mod relation;
mod types;
mod unary_operators;
mod word;

pub use assignments::{assigned, step};
pub use binary_operators::binary;
pub use casts::{cast, size_of_type};
pub use commas::comma;
pub use conditionals::conditional;
pub use constant::{constant_value, is_null_constant};
pub use conversion::{converted, converts, is_integer, may_convert, same_type};
pub use elements::index;
pub use members::{member, selected_tag};
pub use operands::{condition, is_assignable, operand_type, value};
pub use unary_operators::{plus, unary};
pub use word::expr_word;
