//! Declarations of variables at file scope.

ghost use Rattle.std.specs.Prelude.{◌≡◌, length, IfOk, OnOk, map};
ghost use Rattle.c_ast.specs.Declarations.{init_tree, initializer, open_dimensions as dimension_trees, more_declarators as declarator_trees};
ghost use Rattle.c_check_def.specs.Declarators.{global_declarator, more_globals, initialise_global, written_in};
ghost use Rattle.c_check_declaration.specs.Globals.{new_global, global_begun, global_sized, global_typed, begun_global};
ghost use Rattle.c_typed.specs.ProgramEncoding.{written_of as written_tree};
ghost use Rattle.c_check_declaration.specs.Pieces.{if_made};

use crate::completed::completed;
use crate::declarators::{is_begun, is_fixed};
use crate::dimensions::open_dimensions;
use crate::initialisers::initialiser;
use crate::pieces::Pieces;
use base::NoMemory;
use c_ast::{Declarator, Identifier, Init, Initializer, Next};
use c_check_def::{Dimension, Meaning};
use c_check_state::{GlobalObject, MaybeType, Specified, State, object_type, small_if_some};
use c_typed::Written;
use std::alloc::Global;

/// Declares the variables at file scope that follow the first (ISO/IEC 9899:2011, 6.9.2).
pub fn more_globals(
    state: &mut State,
    x: &Specified,
    is_const: bool,
    more: &[Next<Declarator>],
) -> Result<(), NoMemory>
    ensures { OnOk result (state.new ≡
        (more_globals x.now is_const (declarator_trees more.now) state.old).1) }
{
    for next in more {
        global_declared(state, x, is_const, &next.element)?;
    }
    Ok(())
}

/// Declares a variable at file scope. It is numbered among the globals from its name on, before the
/// string literals in its dimensions.
pub fn global_declared(
    state: &mut State,
    x: &Specified,
    is_const: bool,
    d: &Declarator,
) -> Result<(), NoMemory>
    ensures { OnOk result (state.new ≡ (global_declarator x.now is_const (length d.now.stars)
        d.now.name.name d.now.name.span.at (dimension_trees d.now.dimensions)
        (initializer d.now.initializer) state.old).1) }
{
    let stars = d.stars.len();
    let fixed = is_fixed(is_const, stars);
    let number = add_variable(state, d.name.span.at, fixed)?;
    global_begun(state, x, fixed, stars, number, d)
}

fn add_variable(state: &mut State, offset: u32, fixed: bool) -> Result<u32, NoMemory>
    ensures value { IfOk result (λ r. r ≡ (new_global offset fixed state.old).0) }
    ensures state { OnOk result (state.new ≡ (new_global offset fixed state.old).1) }
{
    let written = Vec::new(state.alloc());
    state.add_global(GlobalObject {
        offset,
        ty: MaybeType::none(),
        is_variable: true,
        fixed,
        written,
    })
}

// A variable of this number, from its dimensions on.
fn global_begun(
    state: &mut State,
    x: &Specified,
    fixed: bool,
    stars: usize,
    number: u32,
    d: &Declarator,
) -> Result<(), NoMemory>
    ensures { OnOk result (state.new ≡ (global_begun x.now fixed stars number d.now.name.name
        d.now.name.span.at (dimension_trees d.now.dimensions)
        (initializer d.now.initializer) state.old).1) }
{
    let dimensions = open_dimensions(state, d.dimensions.as_slice())?;
    global_sized(
        state,
        x,
        fixed,
        stars,
        number,
        &d.name,
        &dimensions,
        &d.initializer,
    )
}

// A variable of this number and these dimensions, from its type on.
#[tactic(auto, unfolding(crate::specs::Globals::global_sized))]
fn global_sized(
    state: &mut State,
    x: &Specified,
    fixed: bool,
    stars: usize,
    number: u32,
    name: &Identifier,
    dimensions: &[Dimension],
    begun: &Option<Initializer>,
) -> Result<(), NoMemory>
    ensures { OnOk result (state.new ≡ (global_sized x.now fixed stars number name.now.name
        name.now.span.at dimensions.now (initializer begun.now) state.old).1) }
{
    let may_be_empty = is_begun(begun);
    let ty = object_type(state, may_be_empty, name.span.at, x, stars, dimensions)?;
    global_typed(state, fixed, number, name, ty, begun)
}

// A variable of this number and type, from there on.
fn global_typed(
    state: &mut State,
    fixed: bool,
    number: u32,
    name: &Identifier,
    ty: MaybeType,
    begun: &Option<Initializer>,
) -> Result<(), NoMemory>
    ensures { OnOk result (state.new ≡ (global_typed fixed number name.now.name
        name.now.span.at ty (initializer begun.now) state.old).1) }
{
    state.set_global_type(number, ty.copy()?);
    let meaning = Meaning::Global {
        number,
        is_const: fixed,
    };
    state.declare(&name.name, name.span.at, meaning)?;
    initialise_global(state, number, name.span.at, &ty, begun)
}

fn initialise_global(
    state: &mut State,
    number: u32,
    offset: u32,
    ty: &MaybeType,
    begun: &Option<Initializer>,
) -> Result<(), NoMemory>
    ensures { OnOk result (state.new ≡
        (initialise_global number offset ty.now (initializer begun.now) state.old).1) }
{
    match begun {
        Some(x) => begin_global(state, number, offset, ty, &x.init),
        None => Ok(()),
    }
}

#[tactic(auto, using(crate::proofs::PieceLemmas::empty))]
fn begin_global(
    state: &mut State,
    number: u32,
    offset: u32,
    ty: &MaybeType,
    init: &Init,
) -> Result<(), NoMemory>
    ensures { OnOk result (state.new ≡
        (begun_global number offset ty.now (init_tree init.now) state.old).1) }
{
    let whole = completed(state.alloc(), ty, init)?;
    let mut out = Pieces::new(state.alloc());
    let made = initialiser(state, true, &whole, 0, init, &mut out)?;
    let small = small_if_some(state, offset, whole);
    let written = written_in(state.alloc(), &small, made, out)?;
    state.begin_global(number, small, written);
    Ok(())
}

// What is written in a variable of this type, unless a rule is broken.
fn written_in(
    alloc: Global,
    ty: &MaybeType,
    made: bool,
    out: Pieces,
) -> Result<Vec<Written>, NoMemory>
    ensures { IfOk result
        (λ r. map written_tree r.items ≡ written_in ty.now (if_made made out)) }
{
    if made && ty.get().is_some() {
        out.into_written(alloc)
    } else {
        drop(out);
        Ok(Vec::new(alloc))
    }
}
