//! The types of type names, objects, parameters and results.

ghost use Rattle.std.specs.Prelude.{◌≡◌, not, IfOk, OnOk, option_map};
ghost use Rattle.c_type.specs.Trees.{pointer_to};
ghost use Rattle.c_check_def.specs.State.{if_some};
ghost use Rattle.c_check_state.specs.Frames.{KeepsDeclarations};
ghost use Rattle.c_check_def.specs.DeclaredTypes.{type_if, is_object_of, is_param_of, is_struct, named_type, object_type, param_type, result_type, adjusted, elements_specified, elements_type, size_of_dimension, arrays_of};

use crate::conditions::{small_if_some, starred, type_if, unless_empty};
use crate::derived::{arrays_of, size_of_dimension, sizes_of};
use crate::kinds::{first_is_empty, is_object_of, is_param_of, is_struct, other_is_empty};
use crate::specifiers::Specified;
use crate::{MaybeType, State};
use base::NoMemory;
use c_check_def::Dimension;
use c_type::CType;
use std::alloc::Global;
use std::sync::Arc;

/// The type that a type name names, which begins at the offset, with these stars and sizes
/// (ISO/IEC 9899:2011, 6.7.7).
pub fn named_type(
    state: &mut State,
    offset: u32,
    x: &Specified,
    stars: usize,
    sizes: &[Option<u32>],
) -> Result<MaybeType, NoMemory>
    ensures value { IfOk result
        (λ r. r ≡ (named_type offset x.now stars sizes.now state.old).0) }
    ensures state { OnOk result
        (state.new ≡ (named_type offset x.now stars sizes.now state.old).1) }
    ensures keeps { OnOk result (KeepsDeclarations state.old state.new) }
{
    let of = starred(state, x, stars, offset)?;
    let whole = arrays_of_maybe(state.alloc(), of, sizes)?;
    Ok(small_if_some(state, offset, whole))
}

// Arrays of a type that there may be.
#[tactic(auto, using(crate::proofs::TypeLemmas::of_none))]
fn arrays_of_maybe(
    alloc: Global,
    of: MaybeType,
    sizes: &[Option<u32>],
) -> Result<MaybeType, NoMemory>
    ensures { IfOk result (λ r. r ≡ arrays_of of sizes.now) }
{
    match &of.ty {
        Some(ty) => arrays_of(alloc, ty, sizes),
        None => Ok(MaybeType::none()),
    }
}

/// The type of a variable or a member whose name is at the offset. A dimension may be left empty
/// only where it is the first and that is allowed.
pub fn object_type(
    state: &mut State,
    may_be_empty: bool,
    offset: u32,
    x: &Specified,
    stars: usize,
    dimensions: &[Dimension],
) -> Result<MaybeType, NoMemory>
    ensures value { IfOk result (λ r. r ≡
        (object_type may_be_empty offset x.now stars dimensions.now state.old).0) }
    ensures state { OnOk result (state.new ≡
        (object_type may_be_empty offset x.now stars dimensions.now state.old).1) }
    ensures keeps { OnOk result (KeepsDeclarations state.old state.new) }
{
    let of = starred(state, x, stars, offset)?;
    let of = object_of(state, offset, of);
    let sizes = sizes_of(state.alloc(), dimensions)?;
    let whole = arrays_of_maybe(state.alloc(), of, &sizes)?;
    let small = small_if_some(state, offset, whole);
    let wrong = other_is_empty(dimensions) || (first_is_empty(dimensions) && !may_be_empty);
    Ok(unless_empty(state, wrong, offset, small))
}

fn object_of(state: &mut State, offset: u32, of: MaybeType) -> MaybeType
    ensures value { result ≡ (if_some of (λ t.
        type_if (not (is_object_of state.old.structs t)) offset t) state.old).0 }
    ensures state { state.new ≡ (if_some of (λ t.
        type_if (not (is_object_of state.old.structs t)) offset t) state.old).1 }
    ensures keeps { KeepsDeclarations state.old state.new }
{
    match of.ty {
        Some(ty) => {
            let wrong = !is_object_of(state.types(), &ty);
            type_if(state, wrong, offset, ty)
        }
        None => MaybeType::none(),
    }
}

/// The type of a parameter whose name, or first token, is at the offset: an array is a pointer to
/// its elements (6.7.6.3p7).
pub fn param_type(
    state: &mut State,
    offset: u32,
    x: &Specified,
    stars: usize,
    dimensions: &[Dimension],
) -> Result<MaybeType, NoMemory>
    ensures value { IfOk result
        (λ r. r ≡ (param_type offset x.now stars dimensions.now state.old).0) }
    ensures state { OnOk result
        (state.new ≡ (param_type offset x.now stars dimensions.now state.old).1) }
    ensures keeps { OnOk result (KeepsDeclarations state.old state.new) }
{
    let x = elements_specified(x, dimensions)?;
    let of = starred(state, &x, stars, offset)?;
    let of = param_of(state, offset, of, dimensions);
    let whole = adjusted(state, offset, of, dimensions)?;
    let wrong = other_is_empty(dimensions);
    Ok(unless_empty(state, wrong, offset, whole))
}

// The tag of elements may be undeclared.
fn elements_specified(x: &Specified, dimensions: &[Dimension]) -> Result<Specified, NoMemory>
    ensures { IfOk result (λ r. r ≡ elements_specified x.now dimensions.now) }
{
    let ty = Arc::try_clone(&x.ty)?;
    match dimensions {
        [] => Ok(Specified {
            ty,
            undeclared: x.undeclared,
        }),
        _ => Ok(Specified {
            ty,
            undeclared: None,
        }),
    }
}

fn param_of(state: &mut State, offset: u32, of: MaybeType, dimensions: &[Dimension]) -> MaybeType
    ensures value { result ≡ (if_some of (λ t.
        type_if (not (is_param_of state.old.structs t dimensions.now)) offset t) state.old).0 }
    ensures state { state.new ≡ (if_some of (λ t.
        type_if (not (is_param_of state.old.structs t dimensions.now)) offset t) state.old).1 }
    ensures keeps { KeepsDeclarations state.old state.new }
{
    match of.ty {
        Some(ty) => {
            let wrong = !is_param_of(state.types(), &ty, dimensions);
            type_if(state, wrong, offset, ty)
        }
        None => MaybeType::none(),
    }
}

// A pointer to the elements, where there are dimensions.
fn adjusted(
    state: &mut State,
    offset: u32,
    of: MaybeType,
    dimensions: &[Dimension],
) -> Result<MaybeType, NoMemory>
    ensures value { IfOk result (λ r. r ≡ (adjusted offset of dimensions.now state.old).0) }
    ensures state { OnOk result (state.new ≡ (adjusted offset of dimensions.now state.old).1) }
    ensures keeps { OnOk result (KeepsDeclarations state.old state.new) }
{
    match dimensions {
        [] => Ok(of),
        [first, others @ ..] => {
            let elements = elements_type(state.alloc(), of, *first, others)?;
            let elements = small_if_some(state, offset, elements);
            pointer_to(state.alloc(), elements)
        }
    }
}

// The type of the elements, where all dimensions are known.
fn elements_type(
    alloc: Global,
    of: MaybeType,
    first: Dimension,
    others: &[Dimension],
) -> Result<MaybeType, NoMemory>
    ensures { IfOk result (λ r. r ≡ elements_type of (size_of_dimension first) others.now) }
{
    if size_of_dimension(first).is_none() {
        drop(of);
        return Ok(MaybeType::none());
    }
    let sizes = sizes_of(alloc, others)?;
    arrays_of_maybe(alloc, of, &sizes)
}

fn pointer_to(alloc: Global, of: MaybeType) -> Result<MaybeType, NoMemory>
    ensures { IfOk result (λ r. r ≡ option_map pointer_to of) }
{
    match &of.ty {
        Some(ty) => MaybeType::of(alloc, CType::pointer_to(alloc, ty.copy(alloc)?)?),
        None => Ok(MaybeType::none()),
    }
}

/// The type of the result of a function whose name is at the offset: no struct (6.7.6.3p1).
pub fn result_type(
    state: &mut State,
    offset: u32,
    x: &Specified,
    stars: usize,
) -> Result<MaybeType, NoMemory>
    ensures value { IfOk result (λ r. r ≡ (result_type offset x.now stars state.old).0) }
    ensures state { OnOk result (state.new ≡ (result_type offset x.now stars state.old).1) }
    ensures keeps { OnOk result (KeepsDeclarations state.old state.new) }
{
    let of = starred(state, x, stars, offset)?;
    Ok(no_struct(state, offset, of))
}

fn no_struct(state: &mut State, offset: u32, of: MaybeType) -> MaybeType
    ensures value { result ≡
        (if_some of (λ t. type_if (is_struct t) offset t) state.old).0 }
    ensures state { state.new ≡
        (if_some of (λ t. type_if (is_struct t) offset t) state.old).1 }
    ensures keeps { KeepsDeclarations state.old state.new }
{
    match of.ty {
        Some(ty) => {
            let wrong = is_struct(&ty);
            type_if(state, wrong, offset, ty)
        }
        None => MaybeType::none(),
    }
}
