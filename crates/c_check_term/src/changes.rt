//! What assignments, `++` and `--` make of terms.

ghost use Rattle.std.specs.Prelude.{◌≡◌, Some, IfOk, OnOk};
ghost use Rattle.c_check_def.specs.Assignments.{assigned_typed, step_typed};
ghost use Rattle.c_check_def.specs.declared.refusal_kind.RefusalKind.TheVariants.{BadOperands};
ghost use Rattle.c_check_def.specs.State.{or_broken};
ghost use Rattle.c_check_def.specs.Operands.{term_of, target, stepped, assigned};
ghost use Rattle.c_check_state.specs.Frames.{KeepsDeclarations};

use crate::outcomes::value_or_broken;
use base::NoMemory;
use c_ast::{AssignOp, IncDec};
use c_check_def::{Operand, RefusalKind};
use c_check_state::{State, Term};

// The target of an operator at an offset, where it may be assigned.
fn target(state: &mut State, offset: u32, a: Term) -> Term
    ensures value { result ≡ (target offset a state.old).0 }
    ensures state { state.new ≡ (target offset a state.old).1 }
    ensures keeps { KeepsDeclarations state.old state.new }
{
    match a.operand {
        Some(a) => assignable(state, offset, a),
        None => Term::none(),
    }
}

fn assignable(state: &mut State, offset: u32, a: Box<Operand>) -> Term
    ensures value { result ≡ (target offset (Some a.value) state.old).0 }
    ensures state { state.new ≡ (target offset (Some a.value) state.old).1 }
    ensures keeps { KeepsDeclarations state.old state.new }
{
    if c_operator::is_assignable(&a) {
        Term { operand: Some(a) }
    } else {
        drop(a);
        state.breaks(RefusalKind::NotAssignable, offset);
        Term::none()
    }
}

/// What `++` or `--` at an offset makes of a term (ISO/IEC 9899:2011, 6.5.2.4, 6.5.3.1).
pub fn stepped(
    state: &mut State,
    op: IncDec,
    offset: u32,
    gives_old: bool,
    a: Term,
) -> Result<Term, NoMemory>
    ensures value { IfOk result (λ r. r ≡ (stepped op offset gives_old a state.old).0) }
    ensures state { OnOk result (state.new ≡ (stepped op offset gives_old a state.old).1) }
    ensures keeps { OnOk result (KeepsDeclarations state.old state.new) }
{
    let a = target(state, offset, a);
    match a.operand {
        Some(a) => stepped_of(state, op, offset, gives_old, a),
        None => Ok(Term::none()),
    }
}

fn stepped_of(
    state: &mut State,
    op: IncDec,
    offset: u32,
    gives_old: bool,
    a: Box<Operand>,
) -> Result<Term, NoMemory>
    ensures value { IfOk result (λ r. r ≡ (or_broken BadOperands offset
        (term_of (step_typed state.old.structs op gives_old a.value)) state.old).0) }
    ensures state { OnOk result (state.new ≡ (or_broken BadOperands offset
        (term_of (step_typed state.old.structs op gives_old a.value)) state.old).1) }
    ensures keeps { OnOk result (KeepsDeclarations state.old state.new) }
{
    let made = c_operator::step(state.types(), op, gives_old, Box::into_inner(a))?;
    value_or_broken(state, RefusalKind::BadOperands, offset, made)
}

/// What `=` or a compound assignment at an offset makes of its target and a term (6.5.16).
pub fn assigned(
    state: &mut State,
    op: AssignOp,
    offset: u32,
    a: Term,
    b: Term,
) -> Result<Term, NoMemory>
    ensures value { IfOk result (λ r. r ≡ (assigned op offset a b state.old).0) }
    ensures state { OnOk result (state.new ≡ (assigned op offset a b state.old).1) }
    ensures keeps { OnOk result (KeepsDeclarations state.old state.new) }
{
    let a = target(state, offset, a);
    match a.operand {
        Some(a) => match b.operand {
            Some(b) => assigned_of(state, op, offset, a, b),
            None => {
                drop(a);
                Ok(Term::none())
            }
        },
        None => {
            drop(b);
            Ok(Term::none())
        }
    }
}

fn assigned_of(
    state: &mut State,
    op: AssignOp,
    offset: u32,
    a: Box<Operand>,
    b: Box<Operand>,
) -> Result<Term, NoMemory>
    ensures value { IfOk result (λ r. r ≡ (or_broken BadOperands offset
        (term_of (assigned_typed state.old.structs op a.value b.value)) state.old).0) }
    ensures state { OnOk result (state.new ≡ (or_broken BadOperands offset
        (term_of (assigned_typed state.old.structs op a.value b.value)) state.old).1) }
    ensures keeps { OnOk result (KeepsDeclarations state.old state.new) }
{
    let (alloc, types) = (state.alloc(), state.types());
    let made = c_operator::assigned(alloc, types, op, Box::into_inner(a), Box::into_inner(b))?;
    value_or_broken(state, RefusalKind::BadOperands, offset, made)
}
