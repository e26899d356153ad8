//! Outcomes of operators: an operand or a value, or else a rule is broken.

ghost use Rattle.std.specs.Prelude.{◌≡◌, IfOk, OnOk};
ghost use Rattle.c_check_def.specs.State.{or_broken};
ghost use Rattle.c_check_def.specs.Operands.{term_of};
ghost use Rattle.c_check_state.specs.Frames.{KeepsDeclarations};

use base::NoMemory;
use c_check_def::{Operand, RefusalKind};
use c_check_state::{State, Term};
use c_typed::TExpr;

// The operand that there is, or else the rule is broken.
pub(crate) fn or_broken(
    state: &mut State,
    rule: RefusalKind,
    offset: u32,
    operand: Option<Operand>,
) -> Result<Term, NoMemory>
    ensures value { IfOk result (λ r. r ≡ (or_broken rule offset operand state.old).0) }
    ensures state { OnOk result (state.new ≡ (or_broken rule offset operand state.old).1) }
    ensures keeps { OnOk result (KeepsDeclarations state.old state.new) }
{
    match operand {
        Some(operand) => Term::of(state.alloc(), operand),
        None => {
            state.breaks(rule, offset);
            Ok(Term::none())
        }
    }
}

// The value that there is, or else the rule is broken.
pub(crate) fn value_or_broken(
    state: &mut State,
    rule: RefusalKind,
    offset: u32,
    e: Option<TExpr>,
) -> Result<Term, NoMemory>
    ensures value { IfOk result (λ r. r ≡ (or_broken rule offset (term_of e) state.old).0) }
    ensures state { OnOk result (state.new ≡ (or_broken rule offset (term_of e) state.old).1) }
    ensures keeps { OnOk result (KeepsDeclarations state.old state.new) }
{
    match e {
        Some(e) => Term::of(state.alloc(), Operand::Value(e)),
        None => {
            state.breaks(rule, offset);
            Ok(Term::none())
        }
    }
}
