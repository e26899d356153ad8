//! Sums and differences, of integers and of pointers.

ghost use Rattle.std.specs.Prelude.{◌≡◌, IfOk};
ghost use Rattle.c_typed.specs.WellTyped.{int, type_of};
ghost use Rattle.c_check_def.specs.Arithmetic.{two, two_where, sum, difference};

use crate::arithmetic::{arithmetic, two};
use crate::conversion::same_type;
use crate::types::{are_unsigned, if_unsigned, laid_out_size, shared};
use base::NoMemory;
use c_type::{TypeForm, Types};
use c_typed::{BinaryOp, TExpr};
use std::alloc::Global;
use val_core::Op2;

// An expression of two operands of type `int`.
pub(crate) fn two_in_int(
    alloc: Global,
    op: BinaryOp,
    left: Box<TExpr>,
    right: Box<TExpr>,
) -> Result<TExpr, NoMemory>
    ensures { IfOk result (λ r. r ≡ two op int left.value right.value) }
{
    let ty = if_unsigned(alloc, false)?;
    Ok(two(op, ty, left, right))
}

// One of the type of its left operand, where there is an operator.
fn two_like_left(
    alloc: Global,
    op: Option<BinaryOp>,
    left: Box<TExpr>,
    right: Box<TExpr>,
) -> Result<Option<TExpr>, NoMemory>
    ensures { IfOk result (λ r. r ≡ two_where op (type_of left.value) left.value right.value) }
{
    match op {
        Some(op) => {
            let ty = shared(&left.ty)?;
            Ok(Some(two(op, ty, left, right)))
        }
        None => Ok(None),
    }
}

fn two_like_right(
    alloc: Global,
    op: Option<BinaryOp>,
    left: Box<TExpr>,
    right: Box<TExpr>,
) -> Result<Option<TExpr>, NoMemory>
    ensures { IfOk result (λ r. r ≡ two_where op (type_of right.value) left.value right.value) }
{
    match op {
        Some(op) => {
            let ty = shared(&right.ty)?;
            Ok(Some(two(op, ty, left, right)))
        }
        None => Ok(None),
    }
}

fn two_where_in_int(
    alloc: Global,
    op: Option<BinaryOp>,
    left: Box<TExpr>,
    right: Box<TExpr>,
) -> Result<Option<TExpr>, NoMemory>
    ensures { IfOk result (λ r. r ≡ two_where op int left.value right.value) }
{
    match op {
        Some(op) => Ok(Some(two_in_int(alloc, op, left, right)?)),
        None => Ok(None),
    }
}

// A sum of integers, or of a pointer and an integer in either order (ISO/IEC 9899:2011, 6.5.6p2).
pub(crate) fn sum(
    alloc: Global,
    types: &Types,
    left: Box<TExpr>,
    right: Box<TExpr>,
) -> Result<Option<TExpr>, NoMemory>
    ensures { IfOk result (λ r. r ≡ sum types.now left.value right.value) }
{
    match (&left.ty.form, &right.ty.form) {
        (TypeForm::Scalar(s), TypeForm::Scalar(t)) => {
            let unsigned = are_unsigned(*s, *t);
            Ok(Some(arithmetic(alloc, Op2::Add, Op2::Add, unsigned, left, right)?))
        }
        (TypeForm::Pointer(of), TypeForm::Scalar(_)) => {
            let op = laid_out_size(types, of).map(|bytes| BinaryOp::PointerPlus(bytes));
            two_like_left(alloc, op, left, right)
        }
        (TypeForm::Scalar(_), TypeForm::Pointer(of)) => {
            let op = laid_out_size(types, of).map(|bytes| BinaryOp::IntegerPlus(bytes));
            two_like_right(alloc, op, left, right)
        }
        _ => Ok(None),
    }
}

// A difference of integers, of a pointer and an integer, or of two pointers of one type (6.5.6p3).
pub(crate) fn difference(
    alloc: Global,
    types: &Types,
    left: Box<TExpr>,
    right: Box<TExpr>,
) -> Result<Option<TExpr>, NoMemory>
    ensures { IfOk result (λ r. r ≡ difference types.now left.value right.value) }
{
    match (&left.ty.form, &right.ty.form) {
        (TypeForm::Scalar(s), TypeForm::Scalar(t)) => {
            let unsigned = are_unsigned(*s, *t);
            Ok(Some(arithmetic(alloc, Op2::Sub, Op2::Sub, unsigned, left, right)?))
        }
        (TypeForm::Pointer(of), TypeForm::Scalar(_)) => {
            let op = laid_out_size(types, of).map(|bytes| BinaryOp::PointerMinus(bytes));
            two_like_left(alloc, op, left, right)
        }
        (TypeForm::Pointer(of), TypeForm::Pointer(other)) if same_type(of, other) => {
            let op = laid_out_size(types, of).map(|bytes| BinaryOp::PointerDifference(bytes));
            two_where_in_int(alloc, op, left, right)
        }
        _ => Ok(None),
    }
}
