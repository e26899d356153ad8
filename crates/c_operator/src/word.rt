//! The words that constant expressions are worth.

ghost use Rattle.std.specs.Prelude.{◌≡◌};
ghost use Rattle.c_check_def.specs.Constants.{expr_word, unary_word, binary_word, converted_word, arithmetic_word, has_result, is_below, are_related, truth_word};
ghost use Rattle.c_typed.specs.WellTyped.{is_shift, is_division};

use c_type::{CType, Scalar, TypeForm};
use c_typed::{BinaryOp, ExprForm, Relation, TExpr, UnaryOp};
use val_core::{Op1, Op2, op1, op2};

/// The word that an expression of the form of a constant one is worth, where it has a value
/// (ISO/IEC 9899:2011, 6.6).
pub fn expr_word(e: &TExpr) -> Option<u32>
    ensures { result ≡ expr_word e.now }
{
    match &e.form {
        ExprForm::Constant(w) => Some(*w),
        ExprForm::Unary(op, of) => unary_word(*op, &e.ty, expr_word(of)?),
        ExprForm::Binary(op, a, b) => binary_word(*op, &a.ty, expr_word(a)?, expr_word(b)?),
        ExprForm::LogicalAnd(a, b) => {
            if expr_word(a)? == 0 {
                Some(0)
            } else {
                Some(truth_word(expr_word(b)?))
            }
        }
        ExprForm::LogicalOr(a, b) => {
            if expr_word(a)? == 0 {
                Some(truth_word(expr_word(b)?))
            } else {
                Some(1)
            }
        }
        ExprForm::Conditional(c, a, b) => {
            if expr_word(c)? == 0 {
                expr_word(b)
            } else {
                expr_word(a)
            }
        }
        _ => None,
    }
}

fn truth_word(w: u32) -> u32
    ensures { result ≡ truth_word w }
{
    u32::from(w != 0)
}

fn unary_word(op: UnaryOp, ty: &CType, w: u32) -> Option<u32>
    ensures { result ≡ unary_word op ty.now w }
{
    match op {
        UnaryOp::Convert => Some(converted_word(ty, w)),
        UnaryOp::Negate => Some(op2(Op2::Sub, 0, w)),
        UnaryOp::Complement => Some(op2(Op2::Xor, w, u32::MAX)),
        UnaryOp::LogicalNot => Some(u32::from(w == 0)),
        UnaryOp::Discard | UnaryOp::Put | UnaryOp::Exit => None,
    }
}

// The word in a type: the low bits, extended.
fn converted_word(ty: &CType, w: u32) -> u32
    ensures { result ≡ converted_word ty.now w }
{
    match &ty.form {
        TypeForm::Scalar(Scalar::Char | Scalar::UnsignedChar) => op1(Op1::Zext8, w),
        TypeForm::Scalar(Scalar::SignedChar) => op1(Op1::Sext8, w),
        TypeForm::Scalar(Scalar::UnsignedShort) => op1(Op1::Zext16, w),
        TypeForm::Scalar(Scalar::Short) => op1(Op1::Sext16, w),
        _ => w,
    }
}

// Of operands of this type.
fn binary_word(op: BinaryOp, ty: &CType, a: u32, b: u32) -> Option<u32>
    ensures { result ≡ binary_word op ty.now a b }
{
    match op {
        BinaryOp::Arithmetic(op) => arithmetic_word(op, a, b),
        BinaryOp::Compare(relation) => Some(u32::from(are_related(relation, ty, a, b))),
        _ => None,
    }
}

fn arithmetic_word(op: Op2, a: u32, b: u32) -> Option<u32>
    ensures { result ≡ arithmetic_word op a b }
{
    if has_result(op, b) {
        Some(op2(op, a, b))
    } else {
        None
    }
}

fn has_result(op: Op2, b: u32) -> bool
    ensures { result ≡ has_result op b }
{
    if is_division(op) {
        b != 0
    } else if is_shift(op) {
        b < 32
    } else {
        true
    }
}

fn is_division(op: Op2) -> bool
    ensures { result ≡ is_division op }
{
    matches!(op, Op2::Div | Op2::Rem | Op2::Divu | Op2::Remu)
}

fn is_shift(op: Op2) -> bool
    ensures { result ≡ is_shift op }
{
    matches!(op, Op2::Sll | Op2::Srl | Op2::Sra)
}

fn is_below(ty: &CType, a: u32, b: u32) -> bool
    ensures { result ≡ is_below ty.now a b }
{
    match &ty.form {
        TypeForm::Scalar(Scalar::UnsignedInt) => a < b,
        _ => a.cast_signed() < b.cast_signed(),
    }
}

fn are_related(relation: Relation, ty: &CType, a: u32, b: u32) -> bool
    ensures { result ≡ are_related relation ty.now a b }
{
    match relation {
        Relation::Less => is_below(ty, a, b),
        Relation::Greater => is_below(ty, b, a),
        Relation::LessEqual => !is_below(ty, b, a),
        Relation::GreaterEqual => !is_below(ty, a, b),
        Relation::Equal => a == b,
        Relation::NotEqual => a != b,
    }
}
