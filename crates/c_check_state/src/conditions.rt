//! Types that are there unless a rule is broken, and the rules that are noted.

ghost use Rattle.std.specs.Prelude.{◌≡◌, IfOk, OnOk, None, Some};
ghost use Rattle.c_check_def.specs.State.{if_some};
ghost use Rattle.c_check_state.specs.Frames.{KeepsDeclarations};
ghost use Rattle.c_check_def.specs.DeclaredTypes.{type_if, small_type, unless_empty, unstarred, starred};

use crate::derived::pointers_to;
use crate::kinds::{is_large_with_elements, is_void};
use crate::specifiers::Specified;
use crate::{MaybeType, State};
use base::NoMemory;
use c_check_def::RefusalKind;
use c_type::CType;
use std::sync::Arc;

// The type, unless it breaks a rule.
pub(crate) fn type_if(state: &mut State, wrong: bool, offset: u32, ty: Arc<CType>) -> MaybeType
    ensures value { result ≡ (type_if wrong offset ty.value state.old).0 }
    ensures state { state.new ≡ (type_if wrong offset ty.value state.old).1 }
    ensures keeps { KeepsDeclarations state.old state.new }
{
    if wrong {
        state.breaks(RefusalKind::BadType, offset);
        drop(ty);
        MaybeType::none()
    } else {
        MaybeType::shared(ty)
    }
}

// The type, unless it has too many bytes.
fn small_type(state: &mut State, offset: u32, ty: Arc<CType>) -> MaybeType
    ensures value { result ≡ (small_type offset ty.value state.old).0 }
    ensures state { state.new ≡ (small_type offset ty.value state.old).1 }
    ensures keeps { KeepsDeclarations state.old state.new }
{
    let wrong = is_large_with_elements(state.types(), &ty);
    type_if(state, wrong, offset, ty)
}

/// The type, unless it has too many bytes, with one element where it is an array without any. An
/// incomplete type has no size.
pub fn small_if_some(state: &mut State, offset: u32, ty: MaybeType) -> MaybeType
    ensures value { result ≡ (if_some ty (small_type offset) state.old).0 }
    ensures state { state.new ≡ (if_some ty (small_type offset) state.old).1 }
    ensures keeps { KeepsDeclarations state.old state.new }
{
    match ty.ty {
        Some(ty) => small_type(state, offset, ty),
        None => MaybeType::none(),
    }
}

// The type, unless a dimension is left empty where none may be.
pub(crate) fn unless_empty(state: &mut State, wrong: bool, offset: u32, ty: MaybeType) -> MaybeType
    ensures value { result ≡ (unless_empty wrong offset ty state.old).0 }
    ensures state { state.new ≡ (unless_empty wrong offset ty state.old).1 }
    ensures keeps { KeepsDeclarations state.old state.new }
{
    if wrong {
        state.breaks(RefusalKind::BadType, offset);
        drop(ty);
        MaybeType::none()
    } else {
        ty
    }
}

// The type before the name and its stars (ISO/IEC 9899:2011, 6.7.6.1). Definitions of
// structs and variables stay.
pub(crate) fn starred(
    state: &mut State,
    x: &Specified,
    stars: usize,
    offset: u32,
) -> Result<MaybeType, NoMemory>
    ensures value { IfOk result (λ r. r ≡ (starred x.now stars offset state.old).0) }
    ensures state { OnOk result (state.new ≡ (starred x.now stars offset state.old).1) }
    ensures keeps { OnOk result (KeepsDeclarations state.old state.new) }
{
    if stars == 0 {
        return unstarred(state, x);
    }
    let whole = pointers_to(state.alloc(), &x.ty, stars)?;
    let wrong = is_void(&x.ty);
    Ok(type_if(state, wrong, offset, whole))
}

fn unstarred(state: &mut State, x: &Specified) -> Result<MaybeType, NoMemory>
    ensures value { IfOk result
        (λ r. r ≡ (unstarred x.now.undeclared x.now.type state.old).0) }
    ensures state { OnOk result
        (state.new ≡ (unstarred x.now.undeclared x.now.type state.old).1) }
    ensures keeps { OnOk result (KeepsDeclarations state.old state.new) }
{
    match x.undeclared {
        Some(tag) => {
            state.breaks(RefusalKind::Unknown, tag);
            Ok(MaybeType::none())
        }
        None => Ok(MaybeType::shared(Arc::try_clone(&x.ty)?)),
    }
}
