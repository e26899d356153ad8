//! Comparisons of integers and of pointers.

ghost use Rattle.std.specs.Prelude.{◌≡◌, if◌then◌else◌, IfOk};
ghost use Rattle.c_typed.specs.WellTyped.{if_unsigned, int, type_of};
ghost use Rattle.c_typed.specs.declared.operator.BinaryOp.TheVariants as binary_op;
ghost use Rattle.c_check_def.specs.Constants.{is_null_constant};
ghost use Rattle.c_check_def.specs.Conversions.{converted};
ghost use Rattle.c_check_def.specs.Arithmetic.{two, compared, ordered, equated};

use crate::constant::is_null_constant;
use crate::conversion::{converted, same_type};
use crate::pointer::two_in_int;
use crate::types::{are_unsigned, if_unsigned};
use base::NoMemory;
use c_type::TypeForm;
use c_typed::{BinaryOp, Relation, TExpr};
use std::alloc::Global;

// Two integers compared in `unsigned int` or in `int`.
fn compared(
    alloc: Global,
    relation: Relation,
    unsigned: bool,
    left: Box<TExpr>,
    right: Box<TExpr>,
) -> Result<TExpr, NoMemory>
    ensures { let t = if_unsigned unsigned in
        IfOk result (λ r. r ≡ compared relation t left.value right.value) }
{
    let ty = if_unsigned(alloc, unsigned)?;
    let left = converted(alloc, left, &ty)?;
    let right = converted(alloc, right, &ty)?;
    two_in_int(alloc, BinaryOp::Compare(relation), left, right)
}

// Two integers, or two pointers of one type (ISO/IEC 9899:2011, 6.5.8p2).
pub(crate) fn ordered(
    alloc: Global,
    relation: Relation,
    left: Box<TExpr>,
    right: Box<TExpr>,
) -> Result<Option<TExpr>, NoMemory>
    ensures { IfOk result (λ r. r ≡ ordered relation left.value right.value) }
{
    match (&left.ty.form, &right.ty.form) {
        (TypeForm::Scalar(s), TypeForm::Scalar(t)) => {
            let unsigned = are_unsigned(*s, *t);
            Ok(Some(compared(alloc, relation, unsigned, left, right)?))
        }
        (TypeForm::Pointer(s), TypeForm::Pointer(t)) if same_type(s, t) => Ok(Some(two_in_int(
            alloc,
            BinaryOp::Compare(relation),
            left,
            right,
        )?)),
        _ => Ok(None),
    }
}

// Also a pointer and a null constant (6.5.9p2).
pub(crate) fn equated(
    alloc: Global,
    relation: Relation,
    left: Box<TExpr>,
    right: Box<TExpr>,
) -> Result<Option<TExpr>, NoMemory>
    ensures { IfOk result (λ r. r ≡ equated relation left.value right.value) }
{
    match (&left.ty.form, &right.ty.form) {
        (TypeForm::Pointer(_), TypeForm::Scalar(_)) => null_right(alloc, relation, left, right),
        (TypeForm::Scalar(_), TypeForm::Pointer(_)) => null_left(alloc, relation, left, right),
        _ => ordered(alloc, relation, left, right),
    }
}

// A pointer and a null constant.
fn null_right(
    alloc: Global,
    relation: Relation,
    left: Box<TExpr>,
    right: Box<TExpr>,
) -> Result<Option<TExpr>, NoMemory>
    ensures { let r' = converted (type_of left.value) right.value in
        let made = two (binary_op.Compare relation) int left.value r' in
        IfOk result (λ r. r ≡ (if is_null_constant right.value then Some made else None)) }
{
    if !is_null_constant(&right) {
        return Ok(None);
    }
    let right = converted(alloc, right, &left.ty)?;
    let op = BinaryOp::Compare(relation);
    Ok(Some(two_in_int(alloc, op, left, right)?))
}

fn null_left(
    alloc: Global,
    relation: Relation,
    left: Box<TExpr>,
    right: Box<TExpr>,
) -> Result<Option<TExpr>, NoMemory>
    ensures { let l' = converted (type_of right.value) left.value in
        let made = two (binary_op.Compare relation) int l' right.value in
        IfOk result (λ r. r ≡ (if is_null_constant left.value then Some made else None)) }
{
    if !is_null_constant(&left) {
        return Ok(None);
    }
    let left = converted(alloc, left, &right.ty)?;
    let op = BinaryOp::Compare(relation);
    Ok(Some(two_in_int(alloc, op, left, right)?))
}
