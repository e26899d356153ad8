//! Arithmetic and shifts of two integers, with their promotions.

ghost use Rattle.std.specs.Prelude.{◌≡◌, IfOk};
ghost use Rattle.c_check_def.specs.Conversions.{promoted};
ghost use Rattle.c_check_def.specs.Arithmetic.{chosen, two, arithmetic, integers, shift, shifted};

use crate::conversion::converted;
use crate::types::{are_unsigned, if_unsigned, is_unsigned};
use base::NoMemory;
use c_type::{CType, Scalar, TypeForm};
use c_typed::{BinaryOp, ExprForm, TExpr};
use std::alloc::Global;
use std::sync::Arc;
use val_core::Op2;

// An operation has one form for signed numbers and one for unsigned ones.
pub(crate) fn chosen(signed: Op2, unsigned: Op2, is_unsigned: bool) -> Op2
    ensures { result ≡ chosen signed unsigned is_unsigned }
{
    if is_unsigned { unsigned } else { signed }
}

// An expression of two operands.
pub(crate) fn two(op: BinaryOp, ty: Arc<CType>, left: Box<TExpr>, right: Box<TExpr>) -> TExpr
    ensures { result ≡ two op ty.value left.value right.value }
{
    TExpr {
        ty,
        form: ExprForm::Binary(op, left, right),
    }
}

// An integer of this type, promoted (ISO/IEC 9899:2011, 6.3.1.1).
pub(crate) fn promoted(alloc: Global, s: Scalar, e: Box<TExpr>) -> Result<Box<TExpr>, NoMemory>
    ensures { IfOk result (λ r. r.value ≡ promoted s e.value) }
{
    let ty = if_unsigned(alloc, is_unsigned(s))?;
    converted(alloc, e, &ty)
}

// An operation in `unsigned int` or in `int`.
pub(crate) fn arithmetic(
    alloc: Global,
    signed: Op2,
    unsigned: Op2,
    are_unsigned: bool,
    left: Box<TExpr>,
    right: Box<TExpr>,
) -> Result<TExpr, NoMemory>
    ensures { IfOk result
        (λ r. r ≡ arithmetic signed unsigned are_unsigned left.value right.value) }
{
    let op = BinaryOp::Arithmetic(chosen(signed, unsigned, are_unsigned));
    let ty = if_unsigned(alloc, are_unsigned)?;
    let left = converted(alloc, left, &ty)?;
    let right = converted(alloc, right, &ty)?;
    Ok(two(op, ty, left, right))
}

// An operation on two integers, in their common type.
pub(crate) fn integers(
    alloc: Global,
    signed: Op2,
    unsigned: Op2,
    left: Box<TExpr>,
    right: Box<TExpr>,
) -> Result<Option<TExpr>, NoMemory>
    ensures { IfOk result (λ r. r ≡ integers signed unsigned left.value right.value) }
{
    match (&left.ty.form, &right.ty.form) {
        (TypeForm::Scalar(s), TypeForm::Scalar(t)) => {
            let are_unsigned = are_unsigned(*s, *t);
            Ok(Some(arithmetic(alloc, signed, unsigned, are_unsigned, left, right)?))
        }
        _ => Ok(None),
    }
}

// A shift of two integers, in the type of the promoted left one.
pub(crate) fn shifted(
    alloc: Global,
    signed: Op2,
    unsigned: Op2,
    left: Box<TExpr>,
    right: Box<TExpr>,
) -> Result<Option<TExpr>, NoMemory>
    ensures { IfOk result (λ r. r ≡ shifted signed unsigned left.value right.value) }
{
    match (&left.ty.form, &right.ty.form) {
        (TypeForm::Scalar(s), TypeForm::Scalar(t)) => {
            let (s, t) = (*s, *t);
            Ok(Some(shift(alloc, signed, unsigned, s, t, left, right)?))
        }
        _ => Ok(None),
    }
}

fn shift(
    alloc: Global,
    signed: Op2,
    unsigned: Op2,
    s: Scalar,
    t: Scalar,
    left: Box<TExpr>,
    right: Box<TExpr>,
) -> Result<TExpr, NoMemory>
    ensures { IfOk result (λ r. r ≡ shift signed unsigned s t left.value right.value) }
{
    let op = BinaryOp::Arithmetic(chosen(signed, unsigned, is_unsigned(s)));
    let ty = if_unsigned(alloc, is_unsigned(s))?;
    let left = promoted(alloc, s, left)?;
    let right = promoted(alloc, t, right)?;
    Ok(two(op, ty, left, right))
}
