//! The typed program that the checker makes of a syntax tree, and which are well typed. Each
//! expression has its type, each conversion is written, names are slots and numbers, and string
//! literals are globals. Contracts see it as plain trees.
#![tactic(auto)]

mod expression;
mod operator;
mod program;
mod statement;

pub use expression::{ExprForm, PlaceForm, TExpr, TPlace};
pub use operator::{BinaryOp, CompoundOp, IncDec, Relation, UnaryOp};
pub use program::{TFunction, TGlobal, Typed, Variable, Written};
pub use statement::{Declaration, Element, Group, Initial, Item, StmtForm, TStmt};
