//! The conditional operator `?:`.

ghost use Rattle.std.specs.Prelude.{◌≡◌, IfOk, option_and_then};
ghost use Rattle.c_typed.specs.Typed.{expr, conditional};
ghost use Rattle.c_typed.specs.WellTyped.{type_of, if_unsigned};
ghost use Rattle.c_check_def.specs.Conversions.{converted};
ghost use Rattle.c_check_def.specs.OperandValues.{value_of};
ghost use Rattle.c_check_def.specs.Operators.{on_values, conditional_typed, choice, choice_of};

use crate::constant::is_null_constant;
use crate::conversion::{converted, same_type};
use crate::operands::{boxed_value, condition};
use crate::types::{are_unsigned, if_unsigned, shared};
use base::NoMemory;
use c_check_def::Operand;
use c_type::{CType, TypeForm};
use c_typed::{ExprForm, TExpr};
use std::alloc::Global;
use std::sync::Arc;

/// What `?:` makes of a condition and two operands (ISO/IEC 9899:2011, 6.5.15): two integers, two
/// pointers of one type, a pointer and a null constant, or two void expressions; none of others.
pub fn conditional(
    alloc: Global,
    test: Operand,
    left: Operand,
    right: Operand,
) -> Result<Option<TExpr>, NoMemory>
    ensures { IfOk result (λ r. r ≡ conditional_typed test left right) }
{
    match condition(alloc, test) {
        Ok(Some(test)) => with_test(alloc, test, left, right),
        Ok(None) => {
            drop(left);
            drop(right);
            Ok(None)
        }
        Err(fault) => {
            drop(left);
            drop(right);
            Err(fault)
        }
    }
}

fn with_test(
    alloc: Global,
    test: TExpr,
    left: Operand,
    right: Operand,
) -> Result<Option<TExpr>, NoMemory>
    ensures { IfOk result (λ r. r ≡ on_values (choice_of test) left right) }
{
    match Box::new(alloc, test) {
        Ok(test) => with_boxed(alloc, test, left, right),
        Err(fault) => {
            drop(fault);
            drop(left);
            drop(right);
            Err(NoMemory)
        }
    }
}

fn with_boxed(
    alloc: Global,
    test: Box<TExpr>,
    left: Operand,
    right: Operand,
) -> Result<Option<TExpr>, NoMemory>
    ensures { IfOk result (λ r. r ≡ on_values (choice_of test.value) left right) }
{
    match boxed_value(alloc, left) {
        Ok(Some(left)) => with_left(alloc, test, left, right),
        Ok(None) => {
            drop(right);
            Ok(None)
        }
        Err(fault) => {
            drop(right);
            Err(fault)
        }
    }
}

fn with_left(
    alloc: Global,
    test: Box<TExpr>,
    left: Box<TExpr>,
    right: Operand,
) -> Result<Option<TExpr>, NoMemory>
    ensures { IfOk result
        (λ r. r ≡ option_and_then (choice_of test.value left.value) (value_of right)) }
{
    match boxed_value(alloc, right)? {
        Some(right) => choice(alloc, test, left, right),
        None => Ok(None),
    }
}

fn choice(
    alloc: Global,
    test: Box<TExpr>,
    left: Box<TExpr>,
    right: Box<TExpr>,
) -> Result<Option<TExpr>, NoMemory>
    ensures { IfOk result (λ r. r ≡ choice_of test.value left.value right.value) }
{
    match (&left.ty.form, &right.ty.form) {
        (TypeForm::Scalar(s), TypeForm::Scalar(t)) => {
            let unsigned = are_unsigned(*s, *t);
            Ok(Some(of_integers(alloc, unsigned, test, left, right)?))
        }
        (TypeForm::Pointer(s), TypeForm::Pointer(t)) if same_type(s, t) => {
            let ty = shared(&left.ty)?;
            Ok(Some(chosen(ty, test, left, right)))
        }
        (TypeForm::Pointer(_), TypeForm::Scalar(_)) if is_null_constant(&right) => {
            Ok(Some(null_right(alloc, test, left, right)?))
        }
        (TypeForm::Scalar(_), TypeForm::Pointer(_)) if is_null_constant(&left) => {
            Ok(Some(null_left(alloc, test, left, right)?))
        }
        (TypeForm::Void, TypeForm::Void) => {
            let ty = shared(&left.ty)?;
            Ok(Some(chosen(ty, test, left, right)))
        }
        _ => Ok(None),
    }
}

// One of two operands of this type.
fn chosen(ty: Arc<CType>, test: Box<TExpr>, left: Box<TExpr>, right: Box<TExpr>) -> TExpr
    ensures { result ≡ expr ty.value (conditional test.value left.value right.value) }
{
    let form = ExprForm::Conditional(test, left, right);
    TExpr { ty, form }
}

// Integers, in `unsigned int` or in `int`.
fn of_integers(
    alloc: Global,
    unsigned: bool,
    test: Box<TExpr>,
    left: Box<TExpr>,
    right: Box<TExpr>,
) -> Result<TExpr, NoMemory>
    ensures { IfOk result
        (λ r. r ≡ choice (if_unsigned unsigned) test.value left.value right.value) }
{
    let ty = if_unsigned(alloc, unsigned)?;
    let left = converted(alloc, left, &ty)?;
    let right = converted(alloc, right, &ty)?;
    Ok(chosen(ty, test, left, right))
}

// A pointer, and an integer in its type.
fn null_right(
    alloc: Global,
    test: Box<TExpr>,
    left: Box<TExpr>,
    right: Box<TExpr>,
) -> Result<TExpr, NoMemory>
    ensures { let t = type_of left.value in
        let right = converted t right.value in
        IfOk result (λ r. r ≡ expr t (conditional test.value left.value right)) }
{
    let right = converted(alloc, right, &left.ty)?;
    let ty = shared(&left.ty)?;
    Ok(chosen(ty, test, left, right))
}

fn null_left(
    alloc: Global,
    test: Box<TExpr>,
    left: Box<TExpr>,
    right: Box<TExpr>,
) -> Result<TExpr, NoMemory>
    ensures { let t = type_of right.value in
        let left = converted t left.value in
        IfOk result (λ r. r ≡ expr t (conditional test.value left right.value)) }
{
    let left = converted(alloc, left, &right.ty)?;
    let ty = shared(&right.ty)?;
    Ok(chosen(ty, test, left, right))
}
