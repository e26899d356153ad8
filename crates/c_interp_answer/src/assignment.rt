//! Assignments of numbers to variables (ISO/IEC 9899:2011, 6.5.16, 6.5.2.4, 6.5.3.1).

ghost use Rattle.std.specs.Prelude.{◌≡◌, Bool, if◌then◌else◌};
ghost use Rattle.c_type.specs.Trees.{TypeTree};
ghost use Rattle.c_typed.specs.Typed.{expr, assign, compound, inc_dec};
ghost use Rattle.c_typed.specs.declared.operator.CompoundOp.TheVariants as compound_op;
ghost use Rattle.c_typed.specs.WellTyped.{step_op};
ghost use Rattle.c_interp_answer.specs.TaskViews.{slots_of};
ghost use Rattle.c_interp_answer.specs.Answered.{Tells, place_slot, place_variable, IsWritten};

use crate::answered_expression::word;
use crate::number::{arithmetic_word, converted_word, is_pointer};
use crate::scope::Scope;
use c_interp_def::Slot;
use c_type::CType;
use c_typed::{CompoundOp, ExprForm, IncDec, PlaceForm, TExpr, TPlace};
use val_core::{Op2, Value};

/// A number that is assigned to the variable at a slot, and the number that the assignment gives.
#[derive(Clone, Copy)]
pub struct Assignment {
    pub slot: u32,
    pub word: u32,
    pub given: u32,
}

/// A variable that holds a number.
#[derive(Clone, Copy)]
pub(crate) struct WordVariable {
    pub(crate) slot: u32,
    pub(crate) word: u32,
}

/// The slot of a value variable, where the place is one.
pub fn value_slot(slots: &[Slot], p: &TPlace) -> Option<u32>
    ensures { result ≡ place_slot (slots_of slots.now) p.now }
{
    match &p.form {
        PlaceForm::Local(k) => match slots.get(*k as usize) {
            Some(Slot::Holds(_)) => Some(*k),
            _ => None,
        },
        _ => None,
    }
}

// The variable that the place is, where that holds a number.
fn variable(slots: &[Slot], p: &TPlace) -> Option<WordVariable>
    ensures { result ≡ place_variable (slots_of slots.now) p.now }
{
    match &p.form {
        PlaceForm::Local(k) => match slots.get(*k as usize) {
            Some(Slot::Holds(Value::Num(w))) => Some(WordVariable { slot: *k, word: *w }),
            _ => None,
        },
        _ => None,
    }
}

/// What an expression assigns, where it assigns a number to a variable, and that is known at once;
/// it is looked into so deep.
pub fn written<'a>(scope: &Scope<'a>, e: &TExpr, depth: u32) -> Option<Assignment>
    ensures { Tells scope.now (λ c s. IsWritten c e.now s result) }
{
    match &e.form {
        ExprForm::Assign(p, a) => assigned(scope, p, a, depth),
        ExprForm::Compound(op, p, a) => compounded(scope, &e.ty, *op, p, a, depth),
        ExprForm::IncDec(step, p) => incremented(scope, &e.ty, *step, p),
        _ => None,
    }
}

fn assigned<'a>(scope: &Scope<'a>, p: &TPlace, a: &TExpr, depth: u32) -> Option<Assignment>
    ensures { (t : TypeTree) →
        Tells scope.now (λ c s. IsWritten c (expr t (assign p.now a.now)) s result) }
{
    let slot = value_slot(scope.slots, p)?;
    let w = word(scope, a, depth)?;
    Some(Assignment {
        slot,
        word: w,
        given: w,
    })
}

fn compounded<'a>(
    scope: &Scope<'a>,
    t: &CType,
    op: CompoundOp,
    p: &TPlace,
    a: &TExpr,
    depth: u32,
) -> Option<Assignment>
    ensures { Tells scope.now
        (λ c s. IsWritten c (expr t.now (compound op p.now a.now)) s result) }
{
    match op {
        CompoundOp::Arithmetic { op, .. } => calculated(scope, t, op, p, a, depth),
        _ => None,
    }
}

fn calculated<'a>(
    scope: &Scope<'a>,
    t: &CType,
    op: Op2,
    p: &TPlace,
    a: &TExpr,
    depth: u32,
) -> Option<Assignment>
    ensures { (unsigned : Bool) → Tells scope.now (λ c s. IsWritten c
        (expr t.now (compound (compound_op.Arithmetic op unsigned) p.now a.now)) s result) }
{
    let old = variable(scope.slots, p)?;
    let x = word(scope, a, depth)?;
    let made = arithmetic_word(op, old.word, x)?;
    let w = converted_word(t, made)?;
    Some(Assignment {
        slot: old.slot,
        word: w,
        given: w,
    })
}

fn incremented<'a>(scope: &Scope<'a>, t: &CType, step: IncDec, p: &TPlace) -> Option<Assignment>
    ensures { Tells scope.now (λ c s. IsWritten c (expr t.now (inc_dec step p.now)) s result) }
{
    if is_pointer(t) {
        return None;
    }
    let old = variable(scope.slots, p)?;
    let made = arithmetic_word(step_op(step.up), old.word, step.by)?;
    let w = converted_word(t, made)?;
    Some(Assignment {
        slot: old.slot,
        word: w,
        given: given_word(step, old.word, w),
    })
}

fn step_op(up: bool) -> Op2
    ensures { result ≡ step_op up }
{
    if up { Op2::Add } else { Op2::Sub }
}

fn given_word(step: IncDec, old: u32, w: u32) -> u32
    ensures { result ≡ (if step.gives_old then old else w) }
{
    if step.gives_old { old } else { w }
}
