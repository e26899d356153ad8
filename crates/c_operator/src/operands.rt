//! The types and values of operands, and conditions.

ghost use Rattle.std.specs.Prelude.{◌≡◌, IfOk, MatchOption};
ghost use Rattle.c_typed.specs.Typed.{expr, read};
ghost use Rattle.c_typed.specs.WellTyped.{place_type};
ghost use Rattle.c_check_def.specs.OperandValues.{operand_type, place_value, value_of, if_scalar, is_assignable};
ghost use Rattle.c_check_def.specs.Operators.{condition_of};

use crate::types::{is_scalar, pointer_type, shared};
use base::NoMemory;
use c_check_def::Operand;
use c_type::{CType, TypeForm};
use c_typed::{ExprForm, TExpr, TPlace};
use std::alloc::Global;

/// The type of an operand as it stands, an array or a structure too, as `sizeof` asks it.
pub fn operand_type(operand: &Operand) -> &CType
    ensures { result.now ≡ operand_type operand.now }
{
    match operand {
        Operand::Place { place, .. } => &place.ty,
        Operand::Value(e) => &e.ty,
    }
}

/// The value of an operand (ISO/IEC 9899:2011, 6.3.2.1): what an object of scalar type holds, or
/// the address of the first element of an array. A structure has none.
pub fn value(alloc: Global, operand: Operand) -> Result<Option<TExpr>, NoMemory>
    ensures { IfOk result (λ r. r ≡ value_of operand) }
{
    match operand {
        Operand::Place { place, .. } => place_value(alloc, place),
        Operand::Value(e) => Ok(Some(e)),
    }
}

fn place_value(alloc: Global, place: TPlace) -> Result<Option<TExpr>, NoMemory>
    ensures { IfOk result (λ r. r ≡ place_value (place_type place) place) }
{
    match &place.ty.form {
        TypeForm::Scalar(_) | TypeForm::Pointer(_) => Ok(Some(read(place)?)),
        TypeForm::Array(of, _) => match pointer_type(alloc, of) {
            Ok(ty) => {
                let form = ExprForm::Address(place);
                Ok(Some(TExpr { ty, form }))
            }
            Err(fault) => {
                drop(place);
                Err(fault)
            }
        },
        TypeForm::Void | TypeForm::Struct(_) => {
            drop(place);
            Ok(None)
        }
    }
}

fn read(place: TPlace) -> Result<TExpr, NoMemory>
    ensures { IfOk result (λ r. r ≡ expr (place_type place) (read place)) }
{
    match shared(&place.ty) {
        Ok(ty) => {
            let form = ExprForm::Read(place);
            Ok(TExpr { ty, form })
        }
        Err(fault) => {
            drop(place);
            Err(fault)
        }
    }
}

// The value of an operand in a box: letting that go is one call.
pub(crate) fn boxed_value(alloc: Global, operand: Operand) -> Result<Option<Box<TExpr>>, NoMemory>
    ensures { IfOk result (λ r. MatchOption r (value_of operand ≡ None)
        (λ e. value_of operand ≡ Some e.value)) }
{
    match value(alloc, operand)? {
        Some(e) => Ok(Some(Box::new(alloc, e)?)),
        None => Ok(None),
    }
}

/// A condition: the value of an operand of integer or pointer type, and none of others.
pub fn condition(alloc: Global, operand: Operand) -> Result<Option<TExpr>, NoMemory>
    ensures { IfOk result (λ r. r ≡ condition_of operand) }
{
    match value(alloc, operand)? {
        Some(e) => Ok(if_scalar(e)),
        None => Ok(None),
    }
}

fn if_scalar(e: TExpr) -> Option<TExpr>
    ensures { result ≡ if_scalar e }
{
    if is_scalar(&e.ty) {
        Some(e)
    } else {
        drop(e);
        None
    }
}

/// Whether an assignment, `++` or `--` may have it as its target: an lvalue of integer or pointer
/// type that is not const (6.3.2.1p1).
pub fn is_assignable(operand: &Operand) -> bool
    ensures { result ≡ is_assignable operand.now }
{
    match operand {
        Operand::Place { place, is_const } => is_scalar(&place.ty) && !*is_const,
        Operand::Value(_) => false,
    }
}
