//! What comma operators make of terms.

ghost use Rattle.std.specs.Prelude.{◌≡◌, ◌≢◌, ◌∷◌, ◌++◌, [], None, Some, IfOk, OnOk, MatchOption, option_map};
ghost use Rattle.c_check_def.specs.OperandValues.{value_of};
ghost use Rattle.c_check_def.specs.declared.refusal_kind.RefusalKind.TheVariants.{BadOperands};
ghost use Rattle.c_check_def.specs.State.{or_broken};
ghost use Rattle.c_check_def.specs.Operands.{comma, first_of, followed_by, sequence_term, sequence_value};
ghost use Rattle.c_check_state.specs.Frames.{KeepsDeclarations};

use base::NoMemory;
use c_check_def::{Operand, RefusalKind};
use c_check_state::{State, Term};
use c_typed::TExpr;
use std::alloc::Global;
use std::marker::Model;

/// Operands with commas between them: the values that are dropped, and the operand after the last
/// comma (ISO/IEC 9899:2011, 6.5.17).
#[derive(Drop)]
pub struct Sequence {
    dropped: Vec<TExpr>,
    last: Box<Operand>,
}

impl Model for Sequence {
    ghost use Rattle.c_check_def.specs.Operands.{Sequence as Record};
    ghost use Rattle.c_check_term.specs.Codes.{coded_sequence};

    ghost Value = { Record };

    ghost coded = { coded_sequence };

    ghost view = { λ s. record { dropped = s.dropped.items; last = s.last.value } };
}

/// An operand before any comma.
pub fn first_of(alloc: Global, a: Term) -> Option<Sequence>
    ensures { result ≡ option_map first_of a }
{
    match a.operand {
        Some(last) => {
            let dropped = Vec::new(alloc);
            Some(Sequence { dropped, last })
        }
        None => None,
    }
}

/// The operands and one more, after a comma at the offset.
pub fn comma(
    state: &mut State,
    offset: u32,
    x: Option<Sequence>,
    b: Term,
) -> Result<Option<Sequence>, NoMemory>
    ensures value { IfOk result (λ r. r ≡ (comma offset x b state.old).0) }
    ensures state { OnOk result (state.new ≡ (comma offset x b state.old).1) }
    ensures keeps { OnOk result (KeepsDeclarations state.old state.new) }
{
    match x {
        Some(x) => match b.operand {
            Some(b) => comma_of(state, offset, x, b),
            None => {
                drop(x);
                Ok(None)
            }
        },
        None => {
            drop(b);
            Ok(None)
        }
    }
}

fn comma_of(
    state: &mut State,
    offset: u32,
    x: Sequence,
    b: Box<Operand>,
) -> Result<Option<Sequence>, NoMemory>
    ensures value { IfOk result
        (λ r. r ≡ (or_broken BadOperands offset (followed_by x b.value) state.old).0) }
    ensures state { OnOk result
        (state.new ≡ (or_broken BadOperands offset (followed_by x b.value) state.old).1) }
    ensures keeps { OnOk result (KeepsDeclarations state.old state.new) }
{
    let made = followed_by(state.alloc(), x, b)?;
    if made.is_none() {
        state.breaks(RefusalKind::BadOperands, offset);
    }
    Ok(made)
}

// Both operands have values.
fn followed_by(alloc: Global, x: Sequence, b: Box<Operand>) -> Result<Option<Sequence>, NoMemory>
    ensures { IfOk result (λ r. r ≡ followed_by x b.value) }
{
    let Sequence { dropped, last } = x;
    let first = boxed_value(alloc, last);
    let second = boxed_value(alloc, b);
    match (first, second) {
        (Ok(Some(first)), Ok(Some(second))) => joined(alloc, dropped, first, second),
        (Ok(first), Ok(second)) => {
            drop(first);
            drop(second);
            drop(dropped);
            Ok(None)
        }
        (first, second) => {
            drop(first);
            drop(second);
            drop(dropped);
            Err(NoMemory)
        }
    }
}

fn joined(
    alloc: Global,
    mut dropped: Vec<TExpr>,
    first: Box<TExpr>,
    second: Box<TExpr>,
) -> Result<Option<Sequence>, NoMemory>
    ensures { IfOk result (λ r. r ≡ Some (record {
      dropped = dropped.items ++ first.value ∷ [];
      last = Operand.Value second.value;
    })) }
{
    dropped.push(Box::into_inner(first))?;
    let last = Box::new(alloc, Operand::Value(Box::into_inner(second)))?;
    Ok(Some(Sequence { dropped, last }))
}

// The value of an operand.
fn boxed_value(alloc: Global, a: Box<Operand>) -> Result<Option<Box<TExpr>>, NoMemory>
    ensures { IfOk result (λ r. MatchOption r (value_of a.value ≡ None)
        (λ e. value_of a.value ≡ Some e.value)) }
{
    match c_operator::value(alloc, Box::into_inner(a))? {
        Some(e) => Ok(Some(Box::new(alloc, e)?)),
        None => Ok(None),
    }
}

/// The term that operands with commas between them are: that of the last.
pub fn sequence_term(alloc: Global, x: Option<Sequence>) -> Result<Term, NoMemory>
    ensures { IfOk result (λ r. r ≡ sequence_term x) }
{
    match x {
        Some(x) => sequence_value(alloc, x),
        None => Ok(Term::none()),
    }
}

fn sequence_value(alloc: Global, x: Sequence) -> Result<Term, NoMemory>
    ensures { IfOk result (λ r. r ≡ Some (sequence_value x.dropped x.last)) }
{
    let Sequence { dropped, last } = x;
    if dropped.is_empty() {
        return Ok(Term {
            operand: Some(last),
        });
    }
    last_value(alloc, dropped, Box::into_inner(last))
}

fn last_value(alloc: Global, dropped: Vec<TExpr>, last: Operand) -> Result<Term, NoMemory>
    requires { dropped.items ≢ [] }
    ensures { IfOk result (λ r. r ≡ Some (sequence_value dropped.items last)) }
{
    match last {
        Operand::Value(e) => {
            let e = c_operator::comma(alloc, dropped, e)?;
            Term::of(alloc, Operand::Value(e))
        }
        Operand::Place { place, is_const } => {
            drop(dropped);
            Term::of(alloc, Operand::Place { place, is_const })
        }
    }
}
