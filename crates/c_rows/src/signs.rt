//! Signs of operators.

use c_ast::{AssignOp, BinaryOp, IncDec, Selection, UnaryOp};

/// The binary operator that is written so.
pub fn binary_of(text: &str) -> Option<BinaryOp> {
    match text {
        "*" => Some(BinaryOp::Multiply),
        "/" => Some(BinaryOp::Divide),
        "%" => Some(BinaryOp::Remainder),
        "+" => Some(BinaryOp::Add),
        "-" => Some(BinaryOp::Subtract),
        "<<" => Some(BinaryOp::ShiftLeft),
        ">>" => Some(BinaryOp::ShiftRight),
        "<" => Some(BinaryOp::Less),
        ">" => Some(BinaryOp::Greater),
        "<=" => Some(BinaryOp::LessEqual),
        ">=" => Some(BinaryOp::GreaterEqual),
        "==" => Some(BinaryOp::Equal),
        "!=" => Some(BinaryOp::NotEqual),
        "&" => Some(BinaryOp::BitAnd),
        "^" => Some(BinaryOp::BitXor),
        "|" => Some(BinaryOp::BitOr),
        "&&" => Some(BinaryOp::And),
        "||" => Some(BinaryOp::Or),
        _ => None,
    }
}

/// `=`, or the compound assignment that is written so.
pub fn assign_of(text: &str) -> Option<AssignOp> {
    match text {
        "=" => Some(AssignOp::Plain),
        "*=" => Some(AssignOp::Multiply),
        "/=" => Some(AssignOp::Divide),
        "%=" => Some(AssignOp::Remainder),
        "+=" => Some(AssignOp::Add),
        "-=" => Some(AssignOp::Subtract),
        "<<=" => Some(AssignOp::ShiftLeft),
        ">>=" => Some(AssignOp::ShiftRight),
        "&=" => Some(AssignOp::BitAnd),
        "^=" => Some(AssignOp::BitXor),
        "|=" => Some(AssignOp::BitOr),
        _ => None,
    }
}

/// The operator in front of its operand that is written so.
pub fn unary_of(text: &str) -> Option<UnaryOp> {
    match text {
        "&" => Some(UnaryOp::AddressOf),
        "*" => Some(UnaryOp::Deref),
        "+" => Some(UnaryOp::Plus),
        "-" => Some(UnaryOp::Minus),
        "~" => Some(UnaryOp::BitNot),
        "!" => Some(UnaryOp::Not),
        _ => None,
    }
}

/// `++` or `--`.
pub fn inc_dec_of(text: &str) -> Option<IncDec> {
    match text {
        "++" => Some(IncDec::Increment),
        "--" => Some(IncDec::Decrement),
        _ => None,
    }
}

/// `.` or `->`.
pub fn selection_of(text: &str) -> Option<Selection> {
    match text {
        "." => Some(Selection::Dot),
        "->" => Some(Selection::Arrow),
        _ => None,
    }
}
