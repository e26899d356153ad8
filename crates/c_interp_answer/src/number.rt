//! Operators on numbers.

ghost use Rattle.std.specs.Prelude.{◌≡◌, IfSome};
ghost use Rattle.val_core.specs.Words.{one_if};
ghost use Rattle.val_core.specs.declared.values.Value.TheVariants.{Num};
ghost use Rattle.c_type.specs.Trees.{TypeTree};
ghost use Rattle.c_mean.specs.State.{State, is_pointer, converted, is_defined_on, is_unsigned, related, less_op};
ghost use Rattle.c_mean.specs.Expressions.{unary_done, binary_done, given_word};
ghost use Rattle.c_interp_answer.specs.Answered.{number, defined_word};

use c_interp_store::converted;
use c_type::{CType, Scalar, TypeForm};
use c_typed::{BinaryOp, Relation, UnaryOp};
use val_core::{Op2, Value, op2};

pub(crate) fn is_pointer(t: &CType) -> bool
    ensures { result ≡ is_pointer t.now }
{
    matches!(&t.form, TypeForm::Pointer(_))
}

/// The number that a value is, where it is one.
pub(crate) fn number(v: Value) -> Option<u32>
    ensures { result ≡ number v }
{
    match v {
        Value::Num(w) => Some(w),
        Value::At { .. } | Value::Bad => None,
    }
}

/// 1 for a truth, and 0 for none.
pub(crate) fn one_if(d: bool) -> u32
    ensures { result ≡ one_if d }
{
    if d { 1 } else { 0 }
}

// A divisor is not 0, and a shift is by 0 to 31 (ISO/IEC 9899:2011, 6.5.5p5, 6.5.7p3).
fn is_defined_on(op: Op2, right: u32) -> bool
    ensures { result ≡ is_defined_on op right }
{
    match op {
        Op2::Div | Op2::Rem | Op2::Divu | Op2::Remu => right != 0,
        Op2::Sll | Op2::Srl | Op2::Sra => right < 32,
        Op2::Add | Op2::Sub | Op2::Mul | Op2::And | Op2::Or | Op2::Xor => true,
        Op2::Eq | Op2::Ne | Op2::Slt | Op2::Sltu => true,
    }
}

/// What an operation gives on two numbers, where it is defined.
pub(crate) fn arithmetic_word(op: Op2, x: u32, y: u32) -> Option<u32>
    ensures { result ≡ defined_word op x y }
{
    if is_defined_on(op, y) {
        Some(op2(op, x, y))
    } else {
        None
    }
}

/// A number converted to this type, where that is one.
pub(crate) fn converted_word(t: &CType, w: u32) -> Option<u32>
    ensures { IfSome result (λ r. converted t.now (Num w) ≡ Num r) }
{
    match &t.form {
        TypeForm::Scalar(Scalar::Int | Scalar::UnsignedInt) => Some(w),
        _ => number(converted(t, Value::Num(w))),
    }
}

fn less_op(t: &CType) -> Op2
    ensures { result ≡ less_op (is_unsigned t.now) }
{
    match &t.form {
        TypeForm::Scalar(Scalar::UnsignedInt) => Op2::Sltu,
        _ => Op2::Slt,
    }
}

fn related_word(r: Relation, t: &CType, x: u32, y: u32) -> u32
    ensures { result ≡ related r (less_op (is_unsigned t.now)) x y }
{
    match r {
        Relation::Less => op2(less_op(t), x, y),
        Relation::Greater => op2(less_op(t), y, x),
        Relation::LessEqual => u32::from(op2(less_op(t), y, x) == 0),
        Relation::GreaterEqual => u32::from(op2(less_op(t), x, y) == 0),
        Relation::Equal => u32::from(x == y),
        Relation::NotEqual => u32::from(u32::from(x == y) == 0),
    }
}

/// What a unary operator gives on a number that neither writes a byte nor ends the program, where
/// that is a number.
pub(crate) fn unary_word(op: UnaryOp, t: &CType, x: u32) -> Option<u32>
    ensures { IfSome result (λ w. (u : TypeTree) (s : State) →
        unary_done op t.now u (Num x) s ≡ given_word s w) }
{
    match op {
        UnaryOp::Convert => converted_word(t, x),
        UnaryOp::Negate => Some(op2(Op2::Sub, 0, x)),
        UnaryOp::Complement => Some(op2(Op2::Xor, x, u32::MAX)),
        _ => None,
    }
}

/// What a binary operator gives on two numbers, the left one of this type, where it takes numbers
/// and is defined.
pub(crate) fn binary_words(op: BinaryOp, t: &CType, x: u32, y: u32) -> Option<u32>
    ensures { IfSome result (λ w. (u : TypeTree) (s : State) →
        binary_done op t.now u (Num x) (Num y) s ≡ given_word s w) }
{
    match op {
        BinaryOp::Arithmetic(op) => arithmetic_word(op, x, y),
        BinaryOp::Compare(r) if !is_pointer(t) => Some(related_word(r, t, x, y)),
        _ => None,
    }
}

/// Whether an operator is one of numbers alone, whose left operand is of this type.
pub(crate) fn takes_words(op: BinaryOp, t: &CType) -> bool {
    match op {
        BinaryOp::Arithmetic(_) => true,
        BinaryOp::Compare(_) => !is_pointer(t),
        _ => false,
    }
}
