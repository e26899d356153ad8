//! The elements of objects: their types and offsets.
#![tactic(auto, using(crate::proofs::PartLemmas::parts))]

ghost use Rattle.std.specs.Prelude.{◌≡◌, ◌+◌, option_copied, nat_lt, true, length, slice_get, None, Some, IfOk, if◌then◌else◌};
ghost use Rattle.c_type.specs.Layout.{is_complete, size, offset, members};
ghost use Rattle.c_type.specs.Trees.{array_of};
ghost use Rattle.c_check_def.specs.Initialisers.{part_of, part_at, part_offset, part_type, parts_of, takes, is_list_type, character_array, is_character};

use base::NoMemory;
use c_check_state::MaybeType;
use c_type::{CType, Scalar, TypeForm, Types, bounded_size, is_complete, offset_of};
use std::alloc::Global;

// The type of the element of this index, if the object has one.
pub(crate) fn part_of(
    alloc: Global,
    types: &Types,
    whole: &MaybeType,
    index: u32,
) -> Result<MaybeType, NoMemory>
    ensures { IfOk result (λ r. r ≡ part_of types.now whole.now index) }
{
    match &whole.ty {
        Some(ty) => part_type(alloc, types, ty, index),
        None => Ok(MaybeType::none()),
    }
}

fn part_type(alloc: Global, types: &Types, whole: &CType, index: u32) -> Result<MaybeType, NoMemory>
    ensures { IfOk result (λ r. r ≡ part_type types.now whole.now index) }
{
    match &whole.form {
        TypeForm::Array(of, length) => element_type(alloc, of, *length, index),
        TypeForm::Struct(tag) => member_type(alloc, types, *tag, index),
        _ => Ok(MaybeType::none()),
    }
}

fn element_type(alloc: Global, of: &CType, length: u32, index: u32) -> Result<MaybeType, NoMemory>
    ensures { IfOk result (λ r. r ≡ (if nat_lt index length then Some of.now else None)) }
{
    if index < length {
        MaybeType::of(alloc, of.copy(alloc)?)
    } else {
        Ok(MaybeType::none())
    }
}

fn member_type(alloc: Global, types: &Types, tag: u32, index: u32) -> Result<MaybeType, NoMemory>
    ensures { IfOk result (λ r. r ≡ slice_get (members types.now tag) index) }
{
    if !types.is_defined(tag) {
        return Ok(MaybeType::none());
    }
    match type_at(types.members(tag), index) {
        Some(ty) => MaybeType::of(alloc, ty.copy(alloc)?),
        None => Ok(MaybeType::none()),
    }
}

fn type_at(types: &[CType], index: u32) -> Option<&CType>
    ensures { option_copied result ≡ slice_get types.now index }
{
    types.get(index as usize)
}

// Where the element of this index stands in the object, which begins at an offset. A number
// of bytes has 64 bits.
pub(crate) fn part_at(
    types: &Types,
    whole: &MaybeType,
    object_offset: u64,
    index: u32,
) -> Result<u64, NoMemory>
    ensures { IfOk result (λ r. r ≡ object_offset + part_at types.now whole.now index) }
{
    match &whole.ty {
        Some(ty) => object_offset
            .checked_add(part_offset(types, ty, index)?)
            .ok_or(NoMemory),
        None => Ok(object_offset),
    }
}

fn part_offset(types: &Types, whole: &CType, index: u32) -> Result<u64, NoMemory>
    ensures { IfOk result (λ r. r ≡ part_offset types.now whole.now index) }
{
    match &whole.form {
        TypeForm::Array(of, _) => u64::from(index)
            .checked_mul(whole_size(types, of)?)
            .ok_or(NoMemory),
        TypeForm::Struct(tag) => Ok(member_offset(types, *tag, index)),
        _ => Ok(0),
    }
}

// 0 past the last member.
fn member_offset(types: &Types, tag: u32, index: u32) -> u64
    ensures { result ≡ offset types.now tag index }
{
    if types.has_member(tag, index) {
        u64::from(offset_of(types, tag, index))
    } else {
        0
    }
}

// The size of any type, 0 where it is incomplete.
fn whole_size(types: &Types, t: &CType) -> Result<u64, NoMemory>
    ensures { IfOk result (λ r. r ≡ size types.now t.now) }
{
    match &t.form {
        TypeForm::Void => Ok(0),
        TypeForm::Scalar(_) | TypeForm::Pointer(_) => complete_size(types, t),
        TypeForm::Array(of, length) => {
            let each = whole_size(types, of)?;
            u64::from(*length).checked_mul(each).ok_or(NoMemory)
        }
        TypeForm::Struct(tag) => {
            if types.is_defined(*tag) {
                complete_size(types, t)
            } else {
                Ok(0)
            }
        }
    }
}

fn complete_size(types: &Types, t: &CType) -> Result<u64, NoMemory>
    requires { is_complete types.now t.now ≡ true }
    ensures { IfOk result (λ r. r ≡ size types.now t.now) }
{
    match bounded_size(types, t) {
        Some(size) => Ok(u64::from(size)),
        None => Err(NoMemory),
    }
}

// Whether an object of this type has so many elements.
pub(crate) fn takes(types: &Types, t: &CType, count: u32) -> bool
    ensures { result ≡ takes (parts_of types.now t.now) count }
{
    match &t.form {
        TypeForm::Array(_, length) => count <= *length,
        TypeForm::Struct(tag) => count as usize <= member_count(types, *tag),
        _ => false,
    }
}

fn member_count(types: &Types, tag: u32) -> usize
    ensures { result ≡ length (members types.now tag) }
{
    if types.is_defined(tag) {
        types.members(tag).len()
    } else {
        0
    }
}

pub(crate) fn is_list_type(t: &CType) -> bool
    ensures { result ≡ is_list_type t.now }
{
    matches!(&t.form, TypeForm::Array(..) | TypeForm::Struct(_))
}

// The length of an array of characters (ISO/IEC 9899:2011, 6.7.9p14).
pub(crate) fn character_array(t: &CType) -> Option<u32>
    ensures { result ≡ character_array t.now }
{
    match &t.form {
        TypeForm::Array(of, length) => character_count(of, *length),
        _ => None,
    }
}

pub(crate) fn character_count(of: &CType, length: u32) -> Option<u32>
    ensures { result ≡ character_array (array_of of.now length) }
{
    match &of.form {
        TypeForm::Scalar(s) if is_character(*s) => Some(length),
        _ => None,
    }
}

fn is_character(s: Scalar) -> bool
    ensures { result ≡ is_character s }
{
    matches!(s, Scalar::Char | Scalar::SignedChar | Scalar::UnsignedChar)
}
