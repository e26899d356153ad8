//! The syntax tree, its spelling, and the laws of the grammar.
//! The grammar is a table of productions; beside it stand the spelling of a tree, its offsets and
//! its nesting.
#![tactic(auto)]

mod declaration;
mod expression;
mod external;
pub mod laws;
mod list;
mod operator;
mod specifier;
mod statement;
mod token;

pub use declaration::{Declarator, Init, Initializer, Locals, OpenDimension};
pub use expression::{Dimension, Expr, ExprList, Literal, TypeName};
pub use external::{
    Body, External, Function, Globals, Member, Members, Param, Params, Specifiers, StructBody,
    Structure, Unit,
};
pub use list::Next;
pub use operator::{AssignOp, BinaryOp, IncDec, Selection, UnaryOp};
pub use specifier::{Base, Sign, Spec};
pub use statement::{
    Block, BlockItem, Else, ForClauses, ForHeader, ForStart, Group, Label, Stmt, Subject,
};
pub use token::{Identifier, Span};
