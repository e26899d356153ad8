//! The form of integer constant expressions.

ghost use Rattle.std.specs.Prelude.{◌≡◌};
ghost use Rattle.c_check_def.specs.Types.{is_integer};
ghost use Rattle.c_check_def.specs.Constants.{has_constant_form, is_constant_unary, is_constant_binary};

use crate::conversion::is_integer;
use c_type::CType;
use c_typed::{BinaryOp, ExprForm, TExpr, UnaryOp};

// Whether the expression has the form of an integer constant expression (ISO/IEC 9899:2011, 6.6p6),
// whatever it is worth.
pub(crate) fn has_constant_form(e: &TExpr) -> bool
    ensures { result ≡ has_constant_form e.now }
{
    match &e.form {
        ExprForm::Constant(_) => true,
        ExprForm::Unary(op, of) => is_constant_unary(*op, &e.ty) && has_constant_form(of),
        ExprForm::Binary(op, a, b) => {
            is_constant_binary(*op) && has_constant_form(a) && has_constant_form(b)
        }
        ExprForm::LogicalAnd(a, b) | ExprForm::LogicalOr(a, b) => {
            has_constant_form(a) && has_constant_form(b)
        }
        ExprForm::Conditional(c, a, b) => {
            has_constant_form(c) && has_constant_form(a) && has_constant_form(b)
        }
        _ => false,
    }
}

fn is_constant_unary(op: UnaryOp, ty: &CType) -> bool
    ensures { result ≡ is_constant_unary op ty.now }
{
    match op {
        UnaryOp::Convert => is_integer(ty),
        UnaryOp::Negate | UnaryOp::Complement | UnaryOp::LogicalNot => true,
        UnaryOp::Discard | UnaryOp::Put | UnaryOp::Exit => false,
    }
}

fn is_constant_binary(op: BinaryOp) -> bool
    ensures { result ≡ is_constant_binary op }
{
    matches!(op, BinaryOp::Arithmetic(_) | BinaryOp::Compare(_))
}
