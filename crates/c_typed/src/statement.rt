//! Typed statements, declarations in blocks, and initial values.

use crate::TExpr;
use base::Bytes;
use std::marker::Model;

/// A statement (ISO/IEC 9899:2011, 6.8). A `while` is a loop without step, and a `for` a block of
/// its header's declarations and a loop. Contracts see its tree.
#[cycle(statement)]
#[derive(Drop)]
pub struct TStmt {
    pub form: StmtForm,
}

/// The form of a statement.
#[cycle(statement)]
#[derive(Drop)]
pub enum StmtForm {
    Null,
    /// An expression statement (6.8.3).
    Value(TExpr),
    Block(Vec<Item>),
    /// An `if`, whose second branch is null where there is no `else`.
    IfElse(TExpr, Box<TStmt>, Box<TStmt>),
    /// The condition, true where it is left out, is asked before each turn, and the step is done
    /// after it.
    Loop {
        condition: Option<TExpr>,
        step: Option<TExpr>,
        body: Box<TStmt>,
    },
    DoWhile {
        body: Box<TStmt>,
        condition: TExpr,
    },
    Break,
    Continue,
    ReturnValue(TExpr),
    ReturnNone,
    Switch(TExpr, Vec<Group>),
}

/// What stands in a block. A declaration has the items after it as its scope.
#[cycle(statement)]
#[derive(Drop)]
pub enum Item {
    Statement(TStmt),
    Variable(Declaration),
}

/// The labels of a `switch` that stand together, and the statements after them: the words of its
/// `case`s, in order, and whether `default` is among the labels.
#[cycle(statement)]
#[derive(Drop)]
pub struct Group {
    pub cases: Vec<u32>,
    pub is_default: bool,
    pub body: Vec<Item>,
}

/// The declaration of a variable (6.7): its number in the function, whether its initialiser names
/// it, and what it begins with.
#[derive(Drop)]
pub struct Declaration {
    pub variable: u32,
    pub names_itself: bool,
    pub initial: Initial,
}

/// What a variable begins with (6.7.9).
#[derive(Drop)]
pub enum Initial {
    Nothing,
    Value(TExpr),
    /// Zeros, and then these elements, each evaluated and written before the next.
    Elements(Vec<Element>),
}

/// A written element, at its offset in bytes: a value, or the characters of a string without its
/// closing zero.
#[derive(Drop)]
pub enum Element {
    Value { offset: u32, value: TExpr },
    Characters { offset: u32, characters: Bytes },
}

impl Model for TStmt {
    ghost use Rattle.c_typed.specs.Typed.{StmtTree, stmt_size};
    ghost use Rattle.c_typed.specs.StmtEncoding.{coded_stmt};

    ghost Value = { StmtTree };

    ghost coded = { coded_stmt };

    ghost use Rattle.c_typed.specs.StmtViews.{stmt_of};

    ghost view = { λ s. stmt_of s.form };

    ghost size = { stmt_size };

    ghost use Rattle.c_typed.specs.StmtHeight.{stmt_height};

    ghost size_decreases = { λ a h. stmt_height a.form };
}
