//! Completeness, sizes, alignments and offsets of types.

ghost use Rattle.std.specs.Prelude.{◌≡◌, ◌+◌, ◌*◌, ◌<◌, ◌≤◌, ◌^◌, true, length, ◌↔◌, IsTrue, SomeIff};
ghost use Rattle.base.specs.Limits.{most_type_bytes};
ghost use Rattle.c_type.specs.WellDefined.{AreLaidOut};
ghost use Rattle.c_type.specs.Layout.{is_complete, is_defined, rounded_up, scalar_size, align, size, offset, members, IsLaidOut};

use crate::scalar::Scalar;
use crate::structs::Types;
use crate::trees::{CType, TypeForm};
use base::MOST_TYPE_BYTES;

/// Whether the type is complete (ISO/IEC 9899:2011, 6.2.5p1): no `void`, and no struct without a
/// definition, or an array of these or of no elements.
pub fn is_complete(types: &Types, t: &CType) -> bool
    ensures { result ≡ is_complete types.now t.now }
{
    match &t.form {
        TypeForm::Void => false,
        TypeForm::Scalar(_) | TypeForm::Pointer(_) => true,
        TypeForm::Array(of, length) => *length != 0 && is_complete(types, of),
        TypeForm::Struct(tag) => types.is_defined(*tag),
    }
}

/// Whether the type is complete and has at most `MOST_TYPE_BYTES`.
pub fn is_laid_out(types: &Types, t: &CType) -> bool
    ensures { IsTrue result ↔ IsLaidOut types.now t.now }
{
    is_complete(types, t) && bounded_size(types, t).is_some()
}

/// Whether all these types are complete and have at most `MOST_TYPE_BYTES` each.
pub fn are_laid_out(types: &Types, ts: &[CType]) -> bool
    ensures { IsTrue result ↔ AreLaidOut types.now ts.now }
{
    for t in ts {
        if !is_laid_out(types, t) {
            return false;
        }
    }
    true
}

/// The alignment of a complete type, in bytes: 1, 2 or 4 (6.2.8).
pub fn align_of(types: &Types, t: &CType) -> u32
    requires { IsTrue (is_complete types.now t.now) }
    ensures { result ≡ align types.now t.now }
{
    match &t.form {
        TypeForm::Void => 1,
        TypeForm::Scalar(s) => width(*s),
        TypeForm::Pointer(_) => 4,
        TypeForm::Array(of, _) => align_of(types, of),
        TypeForm::Struct(tag) => types.find(*tag).map_or(1, |s| s.align),
    }
}

/// The size of a complete type of at most `MOST_TYPE_BYTES`, in bytes (6.5.3.4).
pub fn size_of(types: &Types, t: &CType) -> u32
    requires { IsLaidOut types.now t.now }
    ensures { result ≡ size types.now t.now }
{
    match &t.form {
        TypeForm::Void => 0,
        TypeForm::Scalar(s) => width(*s),
        TypeForm::Pointer(_) => 4,
        TypeForm::Array(of, length) => *length * size_of(types, of),
        TypeForm::Struct(tag) => types.find(*tag).map_or(0, |s| s.size),
    }
}

/// The size of a complete type, in bytes, where it is at most `MOST_TYPE_BYTES`.
pub fn bounded_size(types: &Types, t: &CType) -> Option<u32>
    requires { IsTrue (is_complete types.now t.now) }
    ensures { SomeIff result (size types.now t.now ≤ most_type_bytes) (size types.now t.now) }
{
    match &t.form {
        TypeForm::Void => Some(0),
        TypeForm::Scalar(s) => Some(width(*s)),
        TypeForm::Pointer(_) => Some(4),
        TypeForm::Array(of, length) => match bounded_size(types, of) {
            Some(size) => bounded_product(*length, size),
            None => None,
        },
        TypeForm::Struct(tag) => types.find(*tag).map(|s| s.size),
    }
}

/// The offset of a member of a struct that is defined, in bytes; members are counted from 0
/// (6.7.2.1p15).
pub fn offset_of(types: &Types, tag: u32, member: u32) -> u32
    requires defined { IsTrue (is_defined types.now tag) }
    requires member { member < length (members types.now tag) }
    ensures { result ≡ offset types.now tag member }
{
    match types.find(tag) {
        Some(s) => s.offsets[member as usize],
        None => 0,
    }
}

// The size of a scalar, which is its alignment too.
pub(crate) fn width(s: Scalar) -> u32
    ensures { result ≡ scalar_size s }
{
    match s {
        Scalar::Char | Scalar::SignedChar | Scalar::UnsignedChar => 1,
        Scalar::Short | Scalar::UnsignedShort => 2,
        Scalar::Int | Scalar::UnsignedInt => 4,
    }
}

// The least multiple of the alignment that is at least `n`.
pub(crate) fn rounded_up(n: u32, align: u32) -> u32
    requires positive { 0 < align }
    requires room { n + align < 2 ^ 32 }
    ensures { result ≡ rounded_up n align }
{
    (n + (align - 1)) / align * align
}

fn bounded_product(n: u32, size: u32) -> Option<u32>
    requires { size ≤ most_type_bytes }
    ensures { SomeIff result (n * size ≤ most_type_bytes) (n * size) }
{
    let whole = u64::from(n) * u64::from(size);
    if whole <= u64::from(MOST_TYPE_BYTES) {
        Some(whole as u32)
    } else {
        None
    }
}
