//! The operators of expressions, and the punctuators that spell them.
#![tactic(auto, unfolding(crate::specs::Operators::selection_mark, crate::specs::Operators::inc_dec_mark, crate::specs::Operators::unary_mark, crate::specs::Operators::binary_mark, crate::specs::Operators::assign_mark))]

ghost use Rattle.std.specs.Prelude.{◌≡◌};
ghost use Rattle.c_ast.specs.Operators as spec;

use c_lex::Punct;

/// How a member is named: of a structure, or of one after a pointer.
#[derive(Clone, Copy)]
pub enum Selection {
    Dot,
    Arrow,
}

impl Selection {
    /// How it is written.
    pub fn punct(self) -> Punct
        ensures { result ≡ spec.selection_mark self }
    {
        match self {
            Selection::Dot => Punct::Dot,
            Selection::Arrow => Punct::Arrow,
        }
    }
}

/// `++` or `--`.
#[derive(Clone, Copy)]
pub enum IncDec {
    Increment,
    Decrement,
}

impl IncDec {
    /// How it is written.
    pub fn punct(self) -> Punct
        ensures { result ≡ spec.inc_dec_mark self }
    {
        match self {
            IncDec::Increment => Punct::PlusPlus,
            IncDec::Decrement => Punct::MinusMinus,
        }
    }
}

/// An operator in front of its operand (ISO 9899:2011, 6.5.3).
#[derive(Clone, Copy)]
pub enum UnaryOp {
    AddressOf,
    Deref,
    Plus,
    Minus,
    BitNot,
    Not,
}

impl UnaryOp {
    /// How it is written.
    pub fn punct(self) -> Punct
        ensures { result ≡ spec.unary_mark self }
    {
        match self {
            UnaryOp::AddressOf => Punct::Amp,
            UnaryOp::Deref => Punct::Star,
            UnaryOp::Plus => Punct::Plus,
            UnaryOp::Minus => Punct::Minus,
            UnaryOp::BitNot => Punct::Tilde,
            UnaryOp::Not => Punct::Bang,
        }
    }
}

/// A binary operator (ISO 9899:2011, 6.5.5 to 6.5.14), the tightest first.
#[derive(Clone, Copy)]
pub enum BinaryOp {
    Multiply,
    Divide,
    Remainder,
    Add,
    Subtract,
    ShiftLeft,
    ShiftRight,
    Less,
    Greater,
    LessEqual,
    GreaterEqual,
    Equal,
    NotEqual,
    BitAnd,
    BitXor,
    BitOr,
    And,
    Or,
}

impl BinaryOp {
    /// How it is written.
    pub fn punct(self) -> Punct
        ensures { result ≡ spec.binary_mark self }
    {
        match self {
            BinaryOp::Multiply => Punct::Star,
            BinaryOp::Divide => Punct::Slash,
            BinaryOp::Remainder => Punct::Percent,
            BinaryOp::Add => Punct::Plus,
            BinaryOp::Subtract => Punct::Minus,
            BinaryOp::ShiftLeft => Punct::ShiftLeft,
            BinaryOp::ShiftRight => Punct::ShiftRight,
            BinaryOp::Less => Punct::Less,
            BinaryOp::Greater => Punct::Greater,
            BinaryOp::LessEqual => Punct::LessEqual,
            BinaryOp::GreaterEqual => Punct::GreaterEqual,
            BinaryOp::Equal => Punct::EqualEqual,
            BinaryOp::NotEqual => Punct::BangEqual,
            BinaryOp::BitAnd => Punct::Amp,
            BinaryOp::BitXor => Punct::Caret,
            BinaryOp::BitOr => Punct::Pipe,
            BinaryOp::And => Punct::AmpAmp,
            BinaryOp::Or => Punct::PipePipe,
        }
    }
}

/// `=`, or the operator of a compound assignment (ISO 9899:2011, 6.5.16).
#[derive(Clone, Copy)]
pub enum AssignOp {
    Plain,
    Multiply,
    Divide,
    Remainder,
    Add,
    Subtract,
    ShiftLeft,
    ShiftRight,
    BitAnd,
    BitXor,
    BitOr,
}

impl AssignOp {
    /// How it is written.
    pub fn punct(self) -> Punct
        ensures { result ≡ spec.assign_mark self }
    {
        match self {
            AssignOp::Plain => Punct::Equal,
            AssignOp::Multiply => Punct::StarEqual,
            AssignOp::Divide => Punct::SlashEqual,
            AssignOp::Remainder => Punct::PercentEqual,
            AssignOp::Add => Punct::PlusEqual,
            AssignOp::Subtract => Punct::MinusEqual,
            AssignOp::ShiftLeft => Punct::ShiftLeftEqual,
            AssignOp::ShiftRight => Punct::ShiftRightEqual,
            AssignOp::BitAnd => Punct::AmpEqual,
            AssignOp::BitXor => Punct::CaretEqual,
            AssignOp::BitOr => Punct::PipeEqual,
        }
    }
}
