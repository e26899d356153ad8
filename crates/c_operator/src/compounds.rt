//! The operations of compound assignments.

ghost use Rattle.std.specs.Prelude.{◌≡◌, IfOk, IsErr};
ghost use Rattle.c_typed.specs.WellTyped.{type_of, place_type, if_unsigned};
ghost use Rattle.c_check_def.specs.Arithmetic.{chosen};
ghost use Rattle.c_check_def.specs.Conversions.{converted};
ghost use Rattle.c_check_def.specs.Assignments.{compounded, in_type, integers, shifted, moved, increased_by, decreased_by};

use crate::arithmetic::{chosen, promoted};
use crate::conversion::converted;
use crate::types::{are_unsigned, if_unsigned, is_unsigned, laid_out_size, shared};
use base::NoMemory;
use c_type::{TypeForm, Types};
use c_typed::{CompoundOp, ExprForm, TExpr, TPlace};
use std::alloc::Global;
use val_core::Op2;

fn compounded(op: CompoundOp, place: TPlace, e: Box<TExpr>) -> Result<TExpr, NoMemory>
    ensures { IfOk result (λ r. r ≡ compounded op place e.value) }
{
    match shared(&place.ty) {
        Ok(ty) => {
            let form = ExprForm::Compound(op, place, e);
            Ok(TExpr { ty, form })
        }
        Err(fault) => {
            drop(place);
            Err(fault)
        }
    }
}

// An operation on the value of an integer and another integer, in their common type
// (ISO/IEC 9899:2011, 6.5.16.2).
pub(crate) fn integers(
    alloc: Global,
    signed: Op2,
    unsigned: Op2,
    place: TPlace,
    e: Box<TExpr>,
) -> Result<Option<TExpr>, NoMemory>
    ensures { IfOk result (λ r. r ≡ integers signed unsigned place e.value) }
{
    match (&place.ty.form, &e.ty.form) {
        (TypeForm::Scalar(s), TypeForm::Scalar(t)) => {
            let is_unsigned = are_unsigned(*s, *t);
            let op = in_type(chosen(signed, unsigned, is_unsigned), is_unsigned);
            Ok(Some(done(op, place, in_common(alloc, is_unsigned, e))?))
        }
        _ => {
            drop(place);
            Ok(None)
        }
    }
}

fn in_type(op: Op2, unsigned: bool) -> CompoundOp
    ensures { result ≡ in_type op unsigned }
{
    CompoundOp::Arithmetic { op, unsigned }
}

fn in_common(alloc: Global, unsigned: bool, e: Box<TExpr>) -> Result<Box<TExpr>, NoMemory>
    ensures { IfOk result (λ r. r.value ≡ converted (if_unsigned unsigned) e.value) }
{
    let ty = if_unsigned(alloc, unsigned)?;
    converted(alloc, e, &ty)
}

// The operation, where its operand could be made.
fn done(op: CompoundOp, place: TPlace, e: Result<Box<TExpr>, NoMemory>) -> Result<TExpr, NoMemory>
    ensures ok { IfOk e (λ x. IfOk result (λ r. r ≡ compounded op place x.value)) }
    ensures err { IsErr e → IsErr result }
{
    match e {
        Ok(e) => compounded(op, place, e),
        Err(fault) => {
            drop(place);
            Err(fault)
        }
    }
}

// A shift of the value of an integer by another, in its promoted type.
pub(crate) fn shifted(
    alloc: Global,
    signed: Op2,
    unsigned: Op2,
    place: TPlace,
    e: Box<TExpr>,
) -> Result<Option<TExpr>, NoMemory>
    ensures { IfOk result (λ r. r ≡ shifted signed unsigned place e.value) }
{
    match (&place.ty.form, &e.ty.form) {
        (TypeForm::Scalar(s), TypeForm::Scalar(t)) => {
            let t = *t;
            let is_unsigned = is_unsigned(*s);
            let op = in_type(chosen(signed, unsigned, is_unsigned), is_unsigned);
            Ok(Some(done(op, place, promoted(alloc, t, e))?))
        }
        _ => {
            drop(place);
            Ok(None)
        }
    }
}

// A pointer that moves, where there is an operator.
fn moved(op: Option<CompoundOp>, place: TPlace, e: Box<TExpr>) -> Result<Option<TExpr>, NoMemory>
    ensures { IfOk result (λ r. r ≡ moved op place e.value) }
{
    match op {
        Some(op) => Ok(Some(compounded(op, place, e)?)),
        None => {
            drop(place);
            Ok(None)
        }
    }
}

// `+=` of integers, or of a pointer and an integer.
pub(crate) fn increased(
    alloc: Global,
    types: &Types,
    place: TPlace,
    e: Box<TExpr>,
) -> Result<Option<TExpr>, NoMemory>
    ensures { IfOk result
        (λ r. r ≡ increased_by types.now (place_type place) (type_of e.value) place e.value) }
{
    match (&place.ty.form, &e.ty.form) {
        (TypeForm::Pointer(of), TypeForm::Scalar(_)) => {
            let op = laid_out_size(types, of).map(|bytes| CompoundOp::PointerPlus(bytes));
            moved(op, place, e)
        }
        _ => integers(alloc, Op2::Add, Op2::Add, place, e),
    }
}

// `-=` of integers, or of a pointer and an integer.
pub(crate) fn decreased(
    alloc: Global,
    types: &Types,
    place: TPlace,
    e: Box<TExpr>,
) -> Result<Option<TExpr>, NoMemory>
    ensures { IfOk result
        (λ r. r ≡ decreased_by types.now (place_type place) (type_of e.value) place e.value) }
{
    match (&place.ty.form, &e.ty.form) {
        (TypeForm::Pointer(of), TypeForm::Scalar(_)) => {
            let op = laid_out_size(types, of).map(|bytes| CompoundOp::PointerMinus(bytes));
            moved(op, place, e)
        }
        _ => integers(alloc, Op2::Sub, Op2::Sub, place, e),
    }
}
