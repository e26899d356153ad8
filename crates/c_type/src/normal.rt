//! Normal types: what the members of a struct occupy, without arrays of one element and structs of
//! one member.

ghost use Rattle.std.specs.Prelude.{◌≡◌, true, IfOk};
ghost use Rattle.c_type.specs.Layout.{is_complete};
ghost use Rattle.c_type.specs.Normal.{IsNormalOf, AreNormalOf};
ghost use Rattle.c_type.specs.Trees.{array_of, struct_type};
ghost use Rattle.c_type.specs.WellDefined.{AreLaidOut};

use crate::scalar::Scalar;
use crate::structs::Types;
use crate::trees::{CType, TypeForm};
use base::NoMemory;
use std::alloc::Global;

// A normal type that occupies what a complete one does. A pointer occupies what an `int` does.
pub(crate) fn normal_type(alloc: Global, types: &Types, t: &CType) -> Result<CType, NoMemory>
    requires { is_complete types.now t.now ≡ true }
    ensures { IfOk result (λ u. IsNormalOf types.now t.now u) }
{
    match &t.form {
        TypeForm::Void => Ok(CType::void()),
        TypeForm::Scalar(s) => Ok(CType::scalar(*s)),
        TypeForm::Pointer(_) => Ok(CType::scalar(Scalar::Int)),
        TypeForm::Array(of, length) => {
            let element = normal_type(alloc, types, of)?;
            normal_array(alloc, element, *length)
        }
        TypeForm::Struct(tag) => normal_struct(alloc, types, *tag),
    }
}

// An array of a normal type, or its element where it has one.
fn normal_array(alloc: Global, element: CType, length: u32) -> Result<CType, NoMemory>
    ensures one { IfOk result (λ u. length ≡ 1 → u ≡ element) }
    ensures more { IfOk result (λ u. (length ≡ 1 → ⊥) → u ≡ array_of element length) }
{
    if length == 1 {
        Ok(element)
    } else {
        CType::array_of(alloc, element, length)
    }
}

// The normal type of a struct.
fn normal_struct(alloc: Global, types: &Types, tag: u32) -> Result<CType, NoMemory>
    requires { is_complete types.now (struct_type tag) ≡ true }
    ensures { IfOk result (λ u. IsNormalOf types.now (struct_type tag) u) }
{
    match types.find(tag) {
        Some(s) => {
            if s.parts.len() == 1 {
                s.parts[0].copy(alloc)
            } else {
                Ok(CType::structure(tag))
            }
        }
        None => Ok(CType::structure(tag)),
    }
}

// The normal types of members.
pub(crate) fn normal_types(
    alloc: Global,
    types: &Types,
    members: &[CType],
) -> Result<Vec<CType>, NoMemory>
    requires { AreLaidOut types.now members.now }
    ensures { IfOk result (λ v. AreNormalOf types.now members.now v.items) }
{
    let mut parts = Vec::new(alloc);
    for t in members {
        parts.push(normal_type(alloc, types, t)?)?;
    }
    Ok(parts)
}
