//! Numbers: conversions and arithmetic.

ghost use Rattle.std.specs.Prelude.{◌≡◌};
ghost use Rattle.c_typed.specs.WellTyped.{is_division, is_shift};
ghost use Rattle.c_typed.specs.Objects.{access_width};
ghost use Rattle.c_mean.specs.State.{converted, extended, is_defined_on, arithmetic};

use c_type::{CType, Scalar, TypeForm};
use val_core::{Op1, Op2, Value, op2, value1};

/// A value converted to this type (ISO/IEC 9899:2011, 6.3.1.3): the low bits of a number, extended.
pub fn converted(t: &CType, v: Value) -> Value
    ensures { result ≡ converted t.now v }
{
    match &t.form {
        TypeForm::Scalar(Scalar::Char | Scalar::UnsignedChar) => value1(Op1::Zext8, v),
        TypeForm::Scalar(Scalar::SignedChar) => value1(Op1::Sext8, v),
        TypeForm::Scalar(Scalar::UnsignedShort) => value1(Op1::Zext16, v),
        TypeForm::Scalar(Scalar::Short) => value1(Op1::Sext16, v),
        _ => v,
    }
}

/// What a read of an object of this type gives of what its leaf holds.
pub fn extended(t: &CType, v: Value) -> Value
    ensures { result ≡ extended t.now v }
{
    match &t.form {
        TypeForm::Scalar(Scalar::SignedChar) => value1(Op1::Sext8, v),
        TypeForm::Scalar(Scalar::Short) => value1(Op1::Sext16, v),
        _ => v,
    }
}

/// The bytes of a scalar object of this type.
pub fn access_width(t: &CType) -> u8
    ensures { result ≡ access_width t.now }
{
    match &t.form {
        TypeForm::Scalar(Scalar::Char | Scalar::SignedChar | Scalar::UnsignedChar) => 1,
        TypeForm::Scalar(Scalar::Short | Scalar::UnsignedShort) => 2,
        _ => 4,
    }
}

fn is_division(op: Op2) -> bool
    ensures { result ≡ is_division op }
{
    matches!(op, Op2::Div | Op2::Rem | Op2::Divu | Op2::Remu)
}

fn is_shift(op: Op2) -> bool
    ensures { result ≡ is_shift op }
{
    matches!(op, Op2::Sll | Op2::Srl | Op2::Sra)
}

// A divisor is not 0, and a shift is by 0 to 31 (6.5.5p5, 6.5.7p3).
fn is_defined_on(op: Op2, right: u32) -> bool
    ensures { result ≡ is_defined_on op right }
{
    if is_division(op) {
        right != 0
    } else if is_shift(op) {
        right < 32
    } else {
        true
    }
}

/// What an operation gives on two numbers, where it is defined.
pub fn arithmetic(op: Op2, a: Value, b: Value) -> Option<Value>
    ensures { result ≡ arithmetic op a b }
{
    match (a, b) {
        (Value::Num(a), Value::Num(b)) if is_defined_on(op, b) => Some(Value::Num(op2(op, a, b))),
        _ => None,
    }
}
