//! What variables in blocks begin with.
#![tactic(auto, using(crate::proofs::PieceLemmas::empty))]

ghost use Rattle.std.specs.Prelude.{◌≡◌, IfOk, OnOk};
ghost use Rattle.c_ast.specs.Declarations.{init_tree, initializer};
ghost use Rattle.c_typed.specs.StmtViews.{initial_of as initial_tree};
ghost use Rattle.c_check_def.specs.Declarators.{initialise_variable};
ghost use Rattle.c_check_def.specs.Initialisers.{initial};
ghost use Rattle.c_check_declaration.specs.Pieces.{if_made};
ghost use Rattle.c_check_declaration.specs.Bounds.{begun_variable};

use crate::completed::completed;
use crate::initialisers::initialiser;
use crate::pieces::Pieces;
use base::NoMemory;
use c_ast::{Init, Initializer};
use c_check_state::{MaybeType, State, small_if_some};
use c_typed::Initial;
use std::alloc::Global;

// What a variable in a slot begins with, which completes its type (ISO/IEC 9899:2011, 6.7.9).
pub(crate) fn initialise_variable(
    state: &mut State,
    slot: u32,
    offset: u32,
    ty: &MaybeType,
    x: &Option<Initializer>,
) -> Result<Initial, NoMemory>
    ensures value { IfOk result (λ r. initial_tree r ≡
        (initialise_variable slot offset ty.now (initializer x.now) state.old).0) }
    ensures state { OnOk result (state.new ≡
        (initialise_variable slot offset ty.now (initializer x.now) state.old).1) }
{
    match x {
        Some(x) => begin_variable(state, slot, offset, ty, &x.init),
        None => Ok(Initial::Nothing),
    }
}

fn begin_variable(
    state: &mut State,
    slot: u32,
    offset: u32,
    ty: &MaybeType,
    init: &Init,
) -> Result<Initial, NoMemory>
    ensures value { IfOk result (λ r. initial_tree r ≡
        (begun_variable slot offset ty.now (init_tree init.now) state.old).0) }
    ensures state { OnOk result (state.new ≡
        (begun_variable slot offset ty.now (init_tree init.now) state.old).1) }
{
    let whole = completed(state.alloc(), ty, init)?;
    let mut out = Pieces::new(state.alloc());
    let made = initialiser(state, false, &whole, 0, init, &mut out)?;
    let small = small_if_some(state, offset, whole);
    state.set_variable_type(slot, small.copy()?);
    initial(state.alloc(), made, out, &small)
}

fn initial(alloc: Global, made: bool, out: Pieces, ty: &MaybeType) -> Result<Initial, NoMemory>
    ensures { IfOk result (λ r. initial_tree r ≡ initial (if_made made out) ty.now) }
{
    if !made {
        drop(out);
        return Ok(Initial::Nothing);
    }
    match &ty.ty {
        Some(ty) => out.into_initial(alloc, ty),
        None => {
            drop(out);
            Ok(Initial::Nothing)
        }
    }
}
