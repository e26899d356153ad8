//! Statements and blocks.

use crate::{Expr, ExprList, Locals, Span};
use sqlite_items::{Boxed, Items};

/// A statement (ISO 9899:2011, 6.8).
#[cycle(statement)]
#[derive(Drop)]
pub enum Stmt {
    Null(Span),
    Expr {
        value: ExprList,
        semicolon: Span,
    },
    Block(Block),
    If {
        keyword: Span,
        open: Span,
        condition: ExprList,
        close: Span,
        then: Boxed<Stmt>,
        otherwise: Option<Boxed<Else>>,
    },
    While {
        keyword: Span,
        open: Span,
        condition: ExprList,
        close: Span,
        body: Boxed<Stmt>,
    },
    Do {
        keyword: Span,
        body: Boxed<Stmt>,
        until: Span,
        open: Span,
        condition: ExprList,
        close: Span,
        semicolon: Span,
    },
    For {
        keyword: Span,
        open: Span,
        header: ForHeader,
        close: Span,
        body: Boxed<Stmt>,
    },
    Break {
        keyword: Span,
        semicolon: Span,
    },
    Continue {
        keyword: Span,
        semicolon: Span,
    },
    Return {
        keyword: Span,
        value: Option<ExprList>,
        semicolon: Span,
    },
    Switch {
        keyword: Span,
        subject: Subject,
        begin: Span,
        groups: Items<Group>,
        end: Span,
    },
}

/// A compound statement (ISO 9899:2011, 6.8.2).
#[cycle(statement)]
#[derive(Drop)]
pub struct Block {
    pub open: Span,
    pub items: Items<BlockItem>,
    pub close: Span,
}

/// A statement or a declaration in a block (ISO 9899:2011, 6.8.2).
#[cycle(statement)]
#[derive(Drop)]
pub enum BlockItem {
    Stmt(Stmt),
    Locals(Locals),
}

/// `else` and its statement (ISO 9899:2011, 6.8.4.1).
#[cycle(statement)]
#[derive(Drop)]
pub struct Else {
    pub keyword: Span,
    pub body: Boxed<Stmt>,
}

/// What stands in the parentheses of a `for`, on the heap, since other statements are much smaller.
#[derive(Drop)]
pub struct ForHeader {
    pub clauses: Boxed<ForClauses>,
}

/// The clauses of a `for` (ISO 9899:2011, 6.8.5.3).
#[derive(Drop)]
pub struct ForClauses {
    pub start: ForStart,
    pub condition: Option<ExprList>,
    pub semicolon: Span,
    pub step: Option<ExprList>,
}

/// The expression of a `switch` in its parentheses.
#[derive(Drop)]
pub struct Subject {
    pub open: Span,
    pub value: Boxed<ExprList>,
    pub close: Span,
}

/// The first clause of a `for`.
#[derive(Drop)]
pub enum ForStart {
    Locals(Locals),
    Clause {
        value: Option<ExprList>,
        semicolon: Span,
    },
}

/// Labels of a `switch` and the statements after them (ISO 9899:2011, 6.8.4.2).
#[cycle(statement)]
#[derive(Drop)]
pub struct Group {
    pub label: Label,
    pub labels: Items<Label>,
    pub first: Boxed<Stmt>,
    pub more: Items<Stmt>,
}

/// A label of a `switch` (ISO 9899:2011, 6.8.1).
#[derive(Drop)]
pub enum Label {
    Case {
        keyword: Span,
        value: Expr,
        colon: Span,
    },
    Default {
        keyword: Span,
        colon: Span,
    },
}
