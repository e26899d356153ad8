//! Assignments, plain and compound, and `++` and `--`.

ghost use Rattle.std.specs.Prelude.{◌≡◌, IfOk, option_and_then};
ghost use Rattle.c_typed.specs.Typed.{expr, assign};
ghost use Rattle.c_typed.specs.WellTyped.{place_type};
ghost use Rattle.c_check_def.specs.OperandValues.{value_of};
ghost use Rattle.c_check_def.specs.Assignments.{target_place, plain_assigned, place_assigned, assigned_typed, stepped, step_bytes, is_up, place_stepped, step_by, step_typed};

use crate::compounds::{decreased, increased, integers, shifted};
use crate::conversion::{converted, may_convert};
use crate::operands::{boxed_value, is_assignable};
use crate::types::{laid_out_size, shared};
use base::NoMemory;
use c_ast::{AssignOp, IncDec};
use c_check_def::Operand;
use c_type::{CType, TypeForm, Types};
use c_typed::{ExprForm, IncDec as TIncDec, TExpr, TPlace};
use std::alloc::Global;
use val_core::Op2;

/// What `=` or a compound assignment makes of its target and an operand (ISO/IEC 9899:2011,
/// 6.5.16); none where the target may not be assigned (`is_assignable`), and where the operator
/// does not take the operands.
pub fn assigned(
    alloc: Global,
    types: &Types,
    op: AssignOp,
    target: Operand,
    operand: Operand,
) -> Result<Option<TExpr>, NoMemory>
    ensures { IfOk result (λ r. r ≡ assigned_typed types.now op target operand) }
{
    match target_place(target) {
        Some(place) => with_place(alloc, types, op, place, operand),
        None => {
            drop(operand);
            Ok(None)
        }
    }
}

fn with_place(
    alloc: Global,
    types: &Types,
    op: AssignOp,
    place: TPlace,
    operand: Operand,
) -> Result<Option<TExpr>, NoMemory>
    ensures { IfOk result
        (λ r. r ≡ option_and_then (place_assigned types.now op place) (value_of operand)) }
{
    match boxed_value(alloc, operand) {
        Ok(Some(e)) => place_assigned(alloc, types, op, place, e),
        Ok(None) => {
            drop(place);
            Ok(None)
        }
        Err(fault) => {
            drop(place);
            Err(fault)
        }
    }
}

// The lvalue of a target that may be assigned.
fn target_place(target: Operand) -> Option<TPlace>
    ensures { result ≡ target_place target }
{
    if !is_assignable(&target) {
        drop(target);
        return None;
    }
    match target {
        Operand::Place { place, .. } => Some(place),
        Operand::Value(e) => {
            drop(e);
            None
        }
    }
}

fn plain(alloc: Global, place: TPlace, e: Box<TExpr>) -> Result<Option<TExpr>, NoMemory>
    ensures { IfOk result (λ r. r ≡ plain_assigned place e.value) }
{
    if !may_convert(&e, &place.ty) {
        drop(place);
        return Ok(None);
    }
    match converted(alloc, e, &place.ty) {
        Ok(e) => Ok(Some(stored(place, e)?)),
        Err(fault) => {
            drop(place);
            Err(fault)
        }
    }
}

fn stored(place: TPlace, e: Box<TExpr>) -> Result<TExpr, NoMemory>
    ensures { IfOk result (λ r. r ≡ expr (place_type place) (assign place e.value)) }
{
    match shared(&place.ty) {
        Ok(ty) => {
            let form = ExprForm::Assign(place, e);
            Ok(TExpr { ty, form })
        }
        Err(fault) => {
            drop(place);
            Err(fault)
        }
    }
}

fn place_assigned(
    alloc: Global,
    types: &Types,
    op: AssignOp,
    place: TPlace,
    e: Box<TExpr>,
) -> Result<Option<TExpr>, NoMemory>
    ensures { IfOk result (λ r. r ≡ place_assigned types.now op place e.value) }
{
    match op {
        AssignOp::Plain => plain(alloc, place, e),
        AssignOp::Multiply => integers(alloc, Op2::Mul, Op2::Mul, place, e),
        AssignOp::Divide => integers(alloc, Op2::Div, Op2::Divu, place, e),
        AssignOp::Remainder => integers(alloc, Op2::Rem, Op2::Remu, place, e),
        AssignOp::BitAnd => integers(alloc, Op2::And, Op2::And, place, e),
        AssignOp::BitOr => integers(alloc, Op2::Or, Op2::Or, place, e),
        AssignOp::BitXor => integers(alloc, Op2::Xor, Op2::Xor, place, e),
        AssignOp::ShiftLeft => shifted(alloc, Op2::Sll, Op2::Sll, place, e),
        AssignOp::ShiftRight => shifted(alloc, Op2::Sra, Op2::Srl, place, e),
        AssignOp::Add => increased(alloc, types, place, e),
        AssignOp::Subtract => decreased(alloc, types, place, e),
    }
}

/// What `++` or `--` makes of its target, the value being the old one where it stands after it
/// (6.5.2.4, 6.5.3.1); none where the target may not be assigned, and where it is a pointer to what
/// is not complete.
pub fn step(
    types: &Types,
    op: IncDec,
    gives_old: bool,
    target: Operand,
) -> Result<Option<TExpr>, NoMemory>
    ensures { IfOk result (λ r. r ≡ step_typed types.now op gives_old target) }
{
    step_by(types, is_up(op), gives_old, target)
}

fn step_by(
    types: &Types,
    up: bool,
    gives_old: bool,
    target: Operand,
) -> Result<Option<TExpr>, NoMemory>
    ensures { IfOk result (λ r. r ≡ step_by types.now up gives_old target) }
{
    match target_place(target) {
        Some(place) => place_stepped(types, up, gives_old, place),
        None => Ok(None),
    }
}

fn place_stepped(
    types: &Types,
    up: bool,
    gives_old: bool,
    place: TPlace,
) -> Result<Option<TExpr>, NoMemory>
    ensures { IfOk result (λ r. r ≡ place_stepped types.now up gives_old place) }
{
    match step_bytes(types, &place.ty) {
        Some(by) => Ok(Some(stepped(up, gives_old, by, place)?)),
        None => {
            drop(place);
            Ok(None)
        }
    }
}

fn is_up(op: IncDec) -> bool
    ensures { result ≡ is_up op }
{
    match op {
        IncDec::Increment => true,
        IncDec::Decrement => false,
    }
}

fn step_bytes(types: &Types, t: &CType) -> Option<u32>
    ensures { result ≡ step_bytes types.now t.now }
{
    match &t.form {
        TypeForm::Scalar(_) => Some(1),
        TypeForm::Pointer(of) => laid_out_size(types, of),
        _ => None,
    }
}

fn stepped(up: bool, gives_old: bool, by: u32, place: TPlace) -> Result<TExpr, NoMemory>
    ensures { IfOk result (λ r. r ≡ stepped up gives_old by place) }
{
    match shared(&place.ty) {
        Ok(ty) => {
            let form = ExprForm::IncDec(TIncDec { up, gives_old, by }, place);
            Ok(TExpr { ty, form })
        }
        Err(fault) => {
            drop(place);
            Err(fault)
        }
    }
}
