//! Initialisers: what each writes in an object.
#![tactic(auto, using(crate::proofs::PieceLemmas::grows))]

ghost use Rattle.std.specs.Prelude.{◌≡◌, ◌+◌, Some, option_and_then, IfOk, OnOk};
ghost use Rattle.c_ast.specs.Declarations.{init_tree};
ghost use Rattle.c_ast.specs.Expressions.{expr_tree};
ghost use Rattle.c_typed.specs.Typed.{ElementTrees};
ghost use Rattle.c_check_state.specs.Frames.{KeepsDeclarations};
ghost use Rattle.c_check_def.specs.Initialisers.{Elements, both_joined, initialiser, list_for, part_of, part_at, character_array};
ghost use Rattle.c_check_def.specs.State.{if_some};
ghost use Rattle.c_check_declaration.specs.Pieces.{if_made};
ghost use Rattle.c_check_declaration.specs.Parts.{lacks_room};

use crate::parts::{character_array, part_at, part_of, takes};
use crate::pieces::Pieces;
use crate::shapes::{count_in, sets_to_zero};
use crate::texts::text_of;
use crate::values::{characters_begun, value};
use base::NoMemory;
use c_ast::{Expr, Init};
use c_check_def::RefusalKind;
use c_check_state::{MaybeType, State};

// The element of an object: its type, and the offset that it begins at.
#[derive(Drop)]
struct Part {
    ty: MaybeType,
    object_offset: u64,
}

// Appends what an initialiser writes in an object of this type, which begins at an offset, and
// tells whether no rule is broken within it (ISO/IEC 9899:2011, 6.7.9).
pub(crate) fn initialiser(
    state: &mut State,
    is_static: bool,
    ty: &MaybeType,
    object_offset: u64,
    init: &Init,
    out: &mut Pieces,
) -> Result<bool, NoMemory>
    ensures made { IfOk result (λ made. if_made made out.new ≡ both_joined (Some out.old)
        (initialiser is_static ty.now object_offset (init_tree init.now) state.old).0) }
    ensures state { OnOk result
        (state.new ≡
        (initialiser is_static ty.now object_offset (init_tree init.now) state.old).1) }
    ensures keeps { OnOk result (KeepsDeclarations state.old state.new) }
{
    match init {
        Init::Value(e) => whole_value(state, is_static, ty, object_offset, e, out),
        Init::List {
            open,
            first,
            more,
            ..
        } => {
            if sets_to_zero(ty, first.get(), more.as_slice()) {
                return Ok(true);
            }
            let part = element(state, ty, object_offset, 0)?;
            let mut made = initialiser(
                state,
                is_static,
                &part.ty,
                part.object_offset,
                first.get(),
                out,
            )?;
            let mut index = 0u32;
            for next in more.as_slice() {
                index = next_index(index)?;
                let part = element(state, ty, object_offset, index)?;
                let also = initialiser(
                    state,
                    is_static,
                    &part.ty,
                    part.object_offset,
                    &next.element,
                    out,
                )?;
                made = made && also;
            }
            let count = count_in(first.get(), more.as_slice())?;
            Ok(list_made(state, ty, open.at, count, made))
        }
    }
}

// An index in an object has 32 bits.
fn next_index(index: u32) -> Result<u32, NoMemory>
    ensures { IfOk result (λ r. r ≡ index + 1) }
{
    if index < u32::MAX {
        Ok(index + 1)
    } else {
        Err(NoMemory)
    }
}

// The element of this index of an object of this type, which begins at an offset.
fn element(state: &State, ty: &MaybeType, object_offset: u64, index: u32) -> Result<Part, NoMemory>
    ensures ty { IfOk result (λ r. r.ty ≡ part_of state.now.structs ty.now index) }
    ensures object_offset { IfOk result
        (λ r. r.object_offset ≡ object_offset + part_at state.now.structs ty.now index) }
{
    let object_offset = part_at(state.types(), ty, object_offset, index)?;
    let ty = part_of(state.alloc(), state.types(), ty, index)?;
    Ok(Part { ty, object_offset })
}

// An expression, which may be a string for an array of characters.
fn whole_value(
    state: &mut State,
    is_static: bool,
    ty: &MaybeType,
    object_offset: u64,
    e: &Expr,
    out: &mut Pieces,
) -> Result<bool, NoMemory>
    ensures made { IfOk result (λ made. if_made made out.new ≡ both_joined (Some out.old)
        (initialiser is_static ty.now object_offset (expr_tree e.now) state.old).0) }
    ensures state { OnOk result
        (state.new ≡ (initialiser is_static ty.now object_offset (expr_tree e.now) state.old).1) }
    ensures keeps { OnOk result (KeepsDeclarations state.old state.new) }
{
    match text_of(state.alloc(), e)? {
        Some(characters) => match character_length(ty) {
            Some(length) => characters_begun(
                state,
                object_offset,
                e.start(),
                characters,
                length,
                out,
            ),
            None => {
                drop(characters);
                value(state, is_static, ty, object_offset, e, out)
            }
        },
        None => value(state, is_static, ty, object_offset, e, out),
    }
}

fn character_length(ty: &MaybeType) -> Option<u32>
    ensures { result ≡ option_and_then character_array ty.now }
{
    match &ty.ty {
        Some(ty) => character_array(ty),
        None => None,
    }
}

// Whether a list of so many elements begins an object of this type, where its elements are made.
fn list_made(state: &mut State, ty: &MaybeType, offset: u32, count: u32, made: bool) -> bool
    ensures made { (before after : ElementTrees) (es : Elements) →
        if_made made after ≡ both_joined (Some before) es → if_made result after ≡
        both_joined (Some before) (if_some es (list_for ty.now offset count) state.old).0 }
    ensures state { (before after : ElementTrees) (es : Elements) →
        if_made made after ≡ both_joined (Some before) es →
        state.new ≡ (if_some es (list_for ty.now offset count) state.old).1 }
    ensures keeps { KeepsDeclarations state.old state.new }
{
    if made {
        list_fits(state, ty, offset, count)
    } else {
        false
    }
}

// Whether an object of this type has room for so many elements; where it has not, a rule is broken.
fn list_fits(state: &mut State, ty: &MaybeType, offset: u32, count: u32) -> bool
    ensures made { (es : ElementTrees) →
        if_made result es ≡ (list_for ty.now offset count es state.old).0 }
    ensures state { (es : ElementTrees) →
        state.new ≡ (list_for ty.now offset count es state.old).1 }
    ensures keeps { KeepsDeclarations state.old state.new }
{
    let wrong = lacks_room(state, ty, count);
    state.breaks_if(wrong, RefusalKind::BadInitialiser, offset);
    !wrong
}

fn lacks_room(state: &State, ty: &MaybeType, count: u32) -> bool
    ensures { result ≡ lacks_room state.now.structs ty.now count }
{
    match &ty.ty {
        Some(ty) => !takes(state.types(), ty, count),
        None => false,
    }
}
