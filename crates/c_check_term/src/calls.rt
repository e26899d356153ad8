//! What is called, and what calls make of terms.

ghost use Rattle.std.specs.Prelude.{◌≡◌, None, Some, IfOk, OnOk, if◌then◌else◌, slice_get};
ghost use Rattle.c_typed.specs.ExprViews.{form_of};
ghost use Rattle.c_check_def.specs.Calls.{called, called_name, called_meant, called_term, callee_numbered, callee_of, called_as, call_of, call_term, call_form, all_fit};
ghost use Rattle.c_check_term.specs.Passing.{fit_or_broken, exprs_in, unary_form, typed_call};
ghost use Rattle.c_check_state.specs.Frames.{KeepsDeclarations};

use crate::arguments::pass_all;
use crate::names::term_meant;
use base::{Name, NoMemory};
use c_check_def::{Called, Callee, Meaning, Operand, RefusalKind};
use c_check_state::{Declared, MaybeType, State, Term};
use c_typed::{ExprForm, TExpr, UnaryOp};
use std::alloc::Global;
use std::sync::Arc;

/// What a name at an offset is where it is called (ISO/IEC 9899:2011, 6.5.2.2).
pub fn called_name(state: &mut State, name: &Name, offset: u32) -> Result<Called, NoMemory>
    ensures value { IfOk result (λ r. r ≡ (called_name name.now offset state.old).0) }
    ensures state { OnOk result (state.new ≡ (called_name name.now offset state.old).1) }
    ensures keeps { OnOk result (KeepsDeclarations state.old state.new) }
{
    let meaning = state.meaning_of(name);
    called_meant(state, name, offset, meaning)
}

fn called_meant(
    state: &mut State,
    name: &Name,
    offset: u32,
    meaning: Option<Meaning>,
) -> Result<Called, NoMemory>
    ensures value { IfOk result (λ r. r ≡ (called_meant name.now offset meaning state.old).0) }
    ensures state { OnOk result
        (state.new ≡ (called_meant name.now offset meaning state.old).1) }
    ensures keeps { OnOk result (KeepsDeclarations state.old state.new) }
{
    match meaning {
        Some(Meaning::Function(number)) => {
            let callee = callee_numbered(state, number, name, offset);
            Ok(called_as(number, callee))
        }
        Some(Meaning::Variable { .. }) | Some(Meaning::Global { .. }) | None => {
            let a = term_meant(state, offset, meaning)?;
            Ok(called_term(a))
        }
    }
}

/// An expression that is called: it is no function.
pub fn called_term(a: Term) -> Called
    ensures { result ≡ called_term a }
{
    match a.operand {
        Some(a) => {
            drop(a);
            Called::NoFunction
        }
        None => Called::Nothing,
    }
}

// A function is called only where the file defines it, or it is declared before the file.
fn callee_numbered(state: &mut State, number: u32, name: &Name, offset: u32) -> Option<Callee>
    ensures value { result ≡ (callee_numbered number name.now offset state.old).0 }
    ensures state { state.new ≡ (callee_numbered number name.now offset state.old).1 }
    ensures keeps { KeepsDeclarations state.old state.new }
{
    match number {
        0 => Some(Callee::Putchar),
        1 => Some(Callee::Getchar),
        2 => Some(Callee::Exit),
        _ => {
            let defined = state.defined_number(name);
            callee_of(state, offset, defined)
        }
    }
}

fn callee_of(state: &mut State, offset: u32, defined: Option<u32>) -> Option<Callee>
    ensures value { result ≡ (callee_of offset defined state.old).0 }
    ensures state { state.new ≡ (callee_of offset defined state.old).1 }
    ensures keeps { KeepsDeclarations state.old state.new }
{
    match defined {
        Some(number) => Some(Callee::Defined(number)),
        None => {
            state.breaks(RefusalKind::Unknown, offset);
            None
        }
    }
}

fn called_as(declared: u32, callee: Option<Callee>) -> Called
    ensures { result ≡ called_as declared callee }
{
    match callee {
        Some(callee) => Called::Function { callee, declared },
        None => Called::Nothing,
    }
}

/// A call of what is called, with these arguments, `(` being at the offset.
pub fn called(
    state: &mut State,
    offset: u32,
    f: Called,
    arguments: Vec<Term>,
) -> Result<Term, NoMemory>
    ensures value { IfOk result (λ r. r ≡ (called offset f arguments.items state.old).0) }
    ensures state { OnOk result (state.new ≡ (called offset f arguments.items state.old).1) }
    ensures keeps { OnOk result (KeepsDeclarations state.old state.new) }
{
    match f {
        Called::Function { callee, declared } => {
            call_of(state, offset, callee, declared, arguments)
        }
        Called::NoFunction => {
            state.breaks(RefusalKind::BadCall, offset);
            Ok(Term::none())
        }
        Called::Nothing => Ok(Term::none()),
    }
}

fn call_of(
    state: &mut State,
    offset: u32,
    callee: Callee,
    declared: u32,
    xs: Vec<Term>,
) -> Result<Term, NoMemory>
    ensures value { IfOk result (λ r. r ≡
        (call_of offset callee xs.items (slice_get state.old.declared declared) state.old).0) }
    ensures state { OnOk result (state.new ≡
        (call_of offset callee xs.items (slice_get state.old.declared declared) state.old).1) }
    ensures keeps { OnOk result (KeepsDeclarations state.old state.new) }
{
    let alloc = state.alloc();
    match state.declared(declared) {
        Some(f) => {
            let made = call_made(alloc, callee, f, xs)?;
            fit_or_broken(state, offset, made)
        }
        None => Ok(Term::none()),
    }
}

fn fit_or_broken(state: &mut State, offset: u32, made: Option<Term>) -> Result<Term, NoMemory>
    ensures value { IfOk result (λ r. r ≡ (fit_or_broken offset made state.old).0) }
    ensures state { OnOk result (state.new ≡ (fit_or_broken offset made state.old).1) }
    ensures keeps { OnOk result (KeepsDeclarations state.old state.new) }
{
    match made {
        Some(a) => Ok(a),
        None => {
            state.breaks(RefusalKind::BadCall, offset);
            Ok(Term::none())
        }
    }
}

// The call, where each argument fits.
fn call_made(
    alloc: Global,
    callee: Callee,
    f: &Declared,
    xs: Vec<Term>,
) -> Result<Option<Term>, NoMemory>
    ensures { IfOk result (λ r. r ≡
        (if all_fit f.now.params xs.items then Some (call_term callee f.now xs.items) else None)) }
{
    if f.params.len() != xs.len() {
        return Ok(None);
    }
    let passed = pass_all(alloc, &f.params, xs)?;
    if !passed.fit {
        return Ok(None);
    }
    Ok(Some(typed_call(alloc, callee, &f.result, passed.exprs)?))
}

// The call of a function with a result of this type, where there are arguments.
fn typed_call(
    alloc: Global,
    callee: Callee,
    t: &MaybeType,
    exprs: Option<Vec<TExpr>>,
) -> Result<Term, NoMemory>
    ensures { IfOk result (λ r. r ≡ typed_call callee t.now (exprs_in exprs)) }
{
    match &t.ty {
        Some(t) => match exprs {
            Some(exprs) => {
                let ty = Arc::try_clone(t)?;
                let form = call_form(alloc, callee, exprs)?;
                Term::of(alloc, Operand::Value(TExpr { ty, form }))
            }
            None => Ok(Term::none()),
        },
        None => Ok(Term::none()),
    }
}

fn call_form(alloc: Global, callee: Callee, exprs: Vec<TExpr>) -> Result<ExprForm, NoMemory>
    ensures { IfOk result (λ r. form_of r ≡ call_form callee exprs.items) }
{
    match callee {
        Callee::Putchar => unary_form(alloc, UnaryOp::Put, exprs),
        Callee::Getchar => Ok(ExprForm::Get),
        Callee::Exit => unary_form(alloc, UnaryOp::Exit, exprs),
        Callee::Defined(number) => Ok(ExprForm::Call(number, exprs)),
    }
}

// An operation on the first argument.
fn unary_form(alloc: Global, op: UnaryOp, mut exprs: Vec<TExpr>) -> Result<ExprForm, NoMemory>
    ensures { IfOk result (λ r. form_of r ≡ unary_form op exprs.items) }
{
    if exprs.is_empty() {
        return Ok(ExprForm::Get);
    }
    let first = Box::new(alloc, exprs.remove(0))?;
    Ok(ExprForm::Unary(op, first))
}
