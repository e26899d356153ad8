//! The checker of expressions, and of clauses of statements.
//! The two are one recursion (ISO/IEC 9899:2011, 6.5, 6.7.7): a dimension is an expression, and a
//! cast or `sizeof` takes a type name. The term and the state after it are those of the
//! definition of elaboration at the plain tree, out of memory apart.
//! Always: a label is looked up in a set. No struct is defined and no variable added.
#![tactic(auto)]

mod arguments;
mod calls;
mod clauses;
mod commas;
mod conditions;
mod expressions;
mod jumps;
mod labels;
mod literals;
mod operators;
mod type_names;
mod values;
mod words;

pub use clauses::{condition_clause, value_clause};
pub use commas::comma_expression;
pub use conditions::{condition_at, subject_at, value_statement};
pub use expressions::expression;
pub use jumps::{jump, returned};
pub use labels::{Labels, group_labels};
pub use literals::characters;
pub use type_names::{dimensions, type_name};
pub use words::Words;
