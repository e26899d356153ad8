//! Unary operators, other than `++`, `--` and `sizeof`.

ghost use Rattle.std.specs.Prelude.{◌≡◌, IfOk, option_map};
ghost use Rattle.c_type.specs.Trees.{pointer_to};
ghost use Rattle.c_typed.specs.Typed.{expr, address};
ghost use Rattle.c_typed.specs.WellTyped.{type_of, place_type};
ghost use Rattle.c_check_def.specs.Operators.{unary_typed, value_joined, plus_by, minus_by, complement_by, negation, pointed, address_of};

use crate::arithmetic::promoted;
use crate::operands::boxed_value;
use crate::types::{if_unsigned, is_scalar, is_unsigned, owned, pointer_type};
use base::NoMemory;
use c_ast::UnaryOp;
use c_check_def::Operand;
use c_type::TypeForm;
use c_typed::{ExprForm, PlaceForm, TExpr, TPlace, UnaryOp as TUnaryOp};
use std::alloc::Global;

/// What `&`, `*`, `+`, `-`, `~` or `!` makes of an operand (ISO/IEC 9899:2011, 6.5.3): an lvalue or
/// a value; none where it does not take it. `&` takes every lvalue.
pub fn unary(alloc: Global, op: UnaryOp, operand: Operand) -> Result<Option<Operand>, NoMemory>
    ensures { IfOk result (λ r. r ≡ unary_typed op operand) }
{
    if let UnaryOp::AddressOf = op {
        return address_of(alloc, operand);
    }
    match boxed_value(alloc, operand)? {
        Some(e) => joined(alloc, op, e),
        None => Ok(None),
    }
}

fn joined(alloc: Global, op: UnaryOp, e: Box<TExpr>) -> Result<Option<Operand>, NoMemory>
    ensures { IfOk result (λ r. r ≡ value_joined op e.value) }
{
    match op {
        UnaryOp::Deref => pointed(alloc, e),
        UnaryOp::Plus => Ok(as_value(plus(alloc, e)?)),
        UnaryOp::Minus => Ok(as_value(minus(alloc, e)?)),
        UnaryOp::BitNot => Ok(as_value(complement(alloc, e)?)),
        UnaryOp::Not => Ok(as_value(negation(alloc, e)?)),
        UnaryOp::AddressOf => Ok(None),
    }
}

fn as_value(e: Option<TExpr>) -> Option<Operand>
    ensures { result ≡ option_map Operand.Value e }
{
    match e {
        Some(e) => Some(Operand::Value(e)),
        None => None,
    }
}

/// What `+` makes of a value (ISO/IEC 9899:2011, 6.5.3.3): an integer, promoted; none of a value of
/// another type.
pub fn plus(alloc: Global, e: Box<TExpr>) -> Result<Option<TExpr>, NoMemory>
    ensures { IfOk result (λ r. r ≡ plus_by (type_of e.value) e.value) }
{
    match &e.ty.form {
        TypeForm::Scalar(s) => {
            let s = *s;
            let e = promoted(alloc, s, e)?;
            Ok(Some(Box::into_inner(e)))
        }
        _ => Ok(None),
    }
}

fn minus(alloc: Global, e: Box<TExpr>) -> Result<Option<TExpr>, NoMemory>
    ensures { IfOk result (λ r. r ≡ minus_by (type_of e.value) e.value) }
{
    match &e.ty.form {
        TypeForm::Scalar(s) => {
            let s = *s;
            let ty = if_unsigned(alloc, is_unsigned(s))?;
            let form = ExprForm::Unary(TUnaryOp::Negate, promoted(alloc, s, e)?);
            Ok(Some(TExpr { ty, form }))
        }
        _ => Ok(None),
    }
}

fn complement(alloc: Global, e: Box<TExpr>) -> Result<Option<TExpr>, NoMemory>
    ensures { IfOk result (λ r. r ≡ complement_by (type_of e.value) e.value) }
{
    match &e.ty.form {
        TypeForm::Scalar(s) => {
            let s = *s;
            let ty = if_unsigned(alloc, is_unsigned(s))?;
            let form = ExprForm::Unary(TUnaryOp::Complement, promoted(alloc, s, e)?);
            Ok(Some(TExpr { ty, form }))
        }
        _ => Ok(None),
    }
}

fn negation(alloc: Global, e: Box<TExpr>) -> Result<Option<TExpr>, NoMemory>
    ensures { IfOk result (λ r. r ≡ negation e.value) }
{
    if !is_scalar(&e.ty) {
        return Ok(None);
    }
    let ty = if_unsigned(alloc, false)?;
    let form = ExprForm::Unary(TUnaryOp::LogicalNot, e);
    Ok(Some(TExpr { ty, form }))
}

// What a pointer points to.
pub(crate) fn pointed(alloc: Global, e: Box<TExpr>) -> Result<Option<Operand>, NoMemory>
    ensures { IfOk result (λ r. r ≡ pointed e.value) }
{
    match &e.ty.form {
        TypeForm::Pointer(of) => {
            let ty = owned(alloc, of)?;
            let form = PlaceForm::At(e);
            Ok(Some(Operand::Place {
                place: TPlace { ty, form },
                is_const: false,
            }))
        }
        _ => Ok(None),
    }
}

fn address_of(alloc: Global, operand: Operand) -> Result<Option<Operand>, NoMemory>
    ensures { IfOk result (λ r. r ≡ address_of operand) }
{
    match operand {
        Operand::Place { place, .. } => address(alloc, place),
        Operand::Value(e) => {
            drop(e);
            Ok(None)
        }
    }
}

fn address(alloc: Global, place: TPlace) -> Result<Option<Operand>, NoMemory>
    ensures { let t = pointer_to (place_type place) in
        IfOk result (λ r. r ≡ Some (Operand.Value (expr t (address place)))) }
{
    match pointer_type(alloc, &place.ty) {
        Ok(ty) => {
            let form = ExprForm::Address(place);
            Ok(Some(Operand::Value(TExpr { ty, form })))
        }
        Err(fault) => {
            drop(place);
            Err(fault)
        }
    }
}
