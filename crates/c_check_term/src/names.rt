//! Names as terms.

ghost use Rattle.std.specs.Prelude.{◌≡◌, IfOk, OnOk, option_map};
ghost use Rattle.c_typed.specs.Typed.{place, local, global};
ghost use Rattle.c_check_def.specs.Operands.{named, term_meant, variable_named, global_named};
ghost use Rattle.c_check_state.specs.Frames.{KeepsDeclarations};

use base::{Name, NoMemory};
use c_check_def::{Meaning, Operand, RefusalKind};
use c_check_state::{MaybeType, State, Term};
use c_typed::{PlaceForm, TPlace};
use std::alloc::Global;

/// What a name at an offset is as an expression (ISO/IEC 9899:2011, 6.5.1): a variable. A
/// function's
/// name is one only where it is called.
pub fn named(state: &mut State, name: &Name, offset: u32) -> Result<Term, NoMemory>
    ensures value { IfOk result (λ r. r ≡ (named name.now offset state.old).0) }
    ensures state { OnOk result (state.new ≡ (named name.now offset state.old).1) }
    ensures keeps { OnOk result (KeepsDeclarations state.old state.new) }
{
    let meaning = state.meaning_of(name);
    term_meant(state, offset, meaning)
}

// What a name of this meaning is as an expression.
pub(crate) fn term_meant(
    state: &mut State,
    offset: u32,
    meaning: Option<Meaning>,
) -> Result<Term, NoMemory>
    ensures value { IfOk result (λ r. r ≡ (term_meant offset meaning state.old).0) }
    ensures state { OnOk result (state.new ≡ (term_meant offset meaning state.old).1) }
    ensures keeps { OnOk result (KeepsDeclarations state.old state.new) }
{
    match meaning {
        Some(Meaning::Variable { slot, is_const }) => variable_named(state, slot, is_const),
        Some(Meaning::Global { number, is_const }) => global_named(state, number, is_const),
        Some(Meaning::Function(_)) => {
            state.breaks(RefusalKind::BadCall, offset);
            Ok(Term::none())
        }
        None => {
            state.breaks(RefusalKind::Unknown, offset);
            Ok(Term::none())
        }
    }
}

fn variable_named(state: &mut State, slot: u32, is_const: bool) -> Result<Term, NoMemory>
    ensures value { IfOk result (λ r. r ≡ (variable_named slot is_const state.old).0) }
    ensures state { OnOk result (state.new ≡ (variable_named slot is_const state.old).1) }
    ensures keeps { OnOk result (KeepsDeclarations state.old state.new) }
{
    state.name_variable(slot);
    let ty = state.variable_type(slot)?;
    local(state.alloc(), ty, slot, is_const)
}

fn local(alloc: Global, ty: MaybeType, slot: u32, is_const: bool) -> Result<Term, NoMemory>
    ensures { IfOk result
        (λ r. r ≡ option_map (λ t. Operand.Place (place t (local slot)) is_const) ty) }
{
    match ty.ty {
        Some(ty) => {
            let form = PlaceForm::Local(slot);
            let place = TPlace { ty, form };
            Term::of(alloc, Operand::Place { place, is_const })
        }
        None => Ok(Term::none()),
    }
}

fn global_named(state: &State, number: u32, is_const: bool) -> Result<Term, NoMemory>
    ensures { IfOk result (λ r. r ≡ (global_named number is_const state.now).0) }
{
    let ty = state.global_type(number)?;
    global(state.alloc(), ty, number, is_const)
}

// A global of this type, where it has one.
pub(crate) fn global(
    alloc: Global,
    ty: MaybeType,
    number: u32,
    is_const: bool,
) -> Result<Term, NoMemory>
    ensures { IfOk result
        (λ r. r ≡ option_map (λ t. Operand.Place (place t (global number)) is_const) ty) }
{
    match ty.ty {
        Some(ty) => {
            let form = PlaceForm::Global(number);
            let place = TPlace { ty, form };
            Term::of(alloc, Operand::Place { place, is_const })
        }
        None => Ok(Term::none()),
    }
}
