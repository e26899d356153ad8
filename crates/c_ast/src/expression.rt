//! Expressions, with the parentheses that are written, and type names.
#![tactic(auto, using(crate::proofs::StartLemmas::starts))]

ghost use Rattle.std.specs.Prelude.{◌≡◌, Some};
ghost use Rattle.c_ast.specs.Expressions.{expr_tree, list_tree};
ghost use Rattle.c_ast.specs.Spelling.{start_of};

use crate::{AssignOp, BinaryOp, Identifier, IncDec, Next, Selection, Span, Spec, UnaryOp};
use base::Bytes;
use sqlite_items::{Boxed, Items};

/// An expression without a comma operator outside parentheses (ISO 9899:2011, 6.5), with the
/// parentheses that are written.
#[cycle(ast)]
#[derive(Drop)]
pub enum Expr {
    Name(Identifier),
    Number {
        value: u32,
        unsigned: bool,
        span: Span,
    },
    Char {
        value: u8,
        span: Span,
    },
    /// Neighbouring string literals.
    Text {
        first: Literal,
        more: Items<Literal>,
    },
    Paren {
        open: Span,
        inner: ExprList,
        close: Span,
    },
    Index {
        array: Boxed<Expr>,
        open: Span,
        index: ExprList,
        close: Span,
    },
    Call {
        function: Boxed<Expr>,
        open: Span,
        arguments: Option<ExprList>,
        close: Span,
    },
    /// `.` or `->` and a member's name.
    Select {
        object: Boxed<Expr>,
        selection: Selection,
        span: Span,
        member: Identifier,
    },
    /// `++` or `--` after its operand.
    PostIncrement {
        operand: Boxed<Expr>,
        op: IncDec,
        span: Span,
    },
    /// `++` or `--` in front of its operand.
    Increment {
        op: IncDec,
        span: Span,
        operand: Boxed<Expr>,
    },
    /// Another operator in front of its operand.
    Unary {
        op: UnaryOp,
        span: Span,
        operand: Boxed<Expr>,
    },
    Sizeof {
        keyword: Span,
        operand: Boxed<Expr>,
    },
    SizeofType {
        keyword: Span,
        open: Span,
        operand: Boxed<TypeName>,
        close: Span,
    },
    Cast {
        open: Span,
        target: Boxed<TypeName>,
        close: Span,
        operand: Boxed<Expr>,
    },
    Binary {
        left: Boxed<Expr>,
        op: BinaryOp,
        span: Span,
        right: Boxed<Expr>,
    },
    Conditional {
        condition: Boxed<Expr>,
        question: Span,
        then: ExprList,
        colon: Span,
        otherwise: Boxed<Expr>,
    },
    Assign {
        target: Boxed<Expr>,
        op: AssignOp,
        span: Span,
        value: Boxed<Expr>,
    },
}

/// Expressions with commas between them: a comma expression, which may be one expression alone, or
/// the arguments of a call.
#[cycle(ast)]
#[derive(Drop)]
pub struct ExprList {
    pub first: Boxed<Expr>,
    pub more: Items<Next<Expr>>,
}

/// A type's name (ISO 9899:2011, 6.7.7).
#[cycle(ast)]
#[derive(Drop)]
pub struct TypeName {
    pub qualifier: Option<Span>,
    pub spec: Spec,
    pub stars: Items<Span>,
    pub dimensions: Items<Dimension>,
}

/// A dimension of an array.
#[cycle(ast)]
#[derive(Drop)]
pub struct Dimension {
    pub open: Span,
    pub size: Expr,
    pub close: Span,
}

/// A string literal.
#[derive(Drop)]
pub struct Literal {
    pub bytes: Bytes,
    pub span: Span,
}

impl Expr {
    /// The offset of its first token.
    pub fn start(&self) -> u32
        ensures { start_of (expr_tree self.now) ≡ Some result }
    {
        match self {
            Expr::Name(name) => name.span.at,
            Expr::Number { span, .. } | Expr::Char { span, .. } => span.at,
            Expr::Text { first, .. } => first.span.at,
            Expr::Paren { open, .. } | Expr::Cast { open, .. } => open.at,
            Expr::Increment { span, .. } | Expr::Unary { span, .. } => span.at,
            Expr::Sizeof { keyword, .. } | Expr::SizeofType { keyword, .. } => keyword.at,
            Expr::Index { array, .. } => array.get().start(),
            Expr::Call { function, .. } => function.get().start(),
            Expr::Select { object, .. } => object.get().start(),
            Expr::PostIncrement { operand, .. } => operand.get().start(),
            Expr::Binary { left, .. } => left.get().start(),
            Expr::Conditional { condition, .. } => condition.get().start(),
            Expr::Assign { target, .. } => target.get().start(),
        }
    }
}

impl ExprList {
    /// The offset of its first token.
    pub fn start(&self) -> u32
        ensures { start_of (list_tree self.now) ≡ Some result }
    {
        self.first.get().start()
    }
}
