//! Which types an object or a parameter may have.

ghost use Rattle.std.specs.Prelude.{◌≡◌};
ghost use Rattle.std.specs.List.{list_any};
ghost use Rattle.c_check_def.specs.DeclaredTypes.{is_void, is_struct, is_large, with_elements, is_object_of, is_param_of, is_empty, first_is_empty, other_is_empty};

use c_check_def::Dimension;
use c_type::{CType, TypeForm, Types, bounded_size, is_complete};

pub(crate) fn is_void(t: &CType) -> bool
    ensures { result ≡ is_void t.now }
{
    matches!(&t.form, TypeForm::Void)
}

pub(crate) fn is_struct(t: &CType) -> bool
    ensures { result ≡ is_struct t.now }
{
    matches!(&t.form, TypeForm::Struct(_))
}

// A complete type of more than `MOST_TYPE_BYTES`.
fn is_large(types: &Types, t: &CType) -> bool
    ensures { result ≡ is_large types.now t.now }
{
    is_complete(types, t) && bounded_size(types, t).is_none()
}

// Whether the type has too many bytes, with one element where it is an array without any.
pub(crate) fn is_large_with_elements(types: &Types, t: &CType) -> bool
    ensures { result ≡ is_large types.now (with_elements t.now) }
{
    match &t.form {
        TypeForm::Array(of, 0) => is_large(types, of),
        _ => is_large(types, t),
    }
}

// A type that an object may have, or the elements of one (ISO/IEC 9899:2011, 6.7p7, 6.7.6.2p1).
pub(crate) fn is_object_of(types: &Types, t: &CType) -> bool
    ensures { result ≡ is_object_of types.now t.now }
{
    match &t.form {
        TypeForm::Void => false,
        TypeForm::Struct(_) => is_complete(types, t),
        _ => true,
    }
}

// A type that a parameter of these dimensions may have, or its elements.
pub(crate) fn is_param_of(types: &Types, t: &CType, dimensions: &[Dimension]) -> bool
    ensures { result ≡ is_param_of types.now t.now dimensions.now }
{
    match &t.form {
        TypeForm::Void => false,
        TypeForm::Struct(_) => match dimensions {
            [] => false,
            [_] => true,
            _ => is_complete(types, t),
        },
        _ => true,
    }
}

pub(crate) fn is_empty(d: Dimension) -> bool
    ensures { result ≡ is_empty d }
{
    match d {
        Dimension::Empty => true,
        Dimension::Sized(_) => false,
    }
}

pub(crate) fn first_is_empty(dimensions: &[Dimension]) -> bool
    ensures { result ≡ first_is_empty dimensions.now }
{
    match dimensions {
        [first, ..] => is_empty(*first),
        [] => false,
    }
}

// Whether a dimension after the first is left empty.
#[tactic(auto, using(crate::proofs::TypeLemmas::other))]
pub(crate) fn other_is_empty(dimensions: &[Dimension]) -> bool
    ensures { result ≡ other_is_empty dimensions.now }
{
    if dimensions.is_empty() {
        false
    } else {
        any_is_empty(&dimensions[1..])
    }
}

fn any_is_empty(dimensions: &[Dimension]) -> bool
    ensures { result ≡ list_any is_empty dimensions.now }
{
    dimensions.iter().any(|d| is_empty(*d))
}
