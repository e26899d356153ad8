//! The types that operators work in.

ghost use Rattle.std.specs.Prelude.{◌≡◌, IfOk};
ghost use Rattle.c_type.specs.Trees.{pointer_to};
ghost use Rattle.c_typed.specs.WellTyped.{if_unsigned};
ghost use Rattle.c_check_def.specs.Types.{is_scalar, is_unsigned, are_unsigned, laid_out_size};

use base::NoMemory;
use c_type::{CType, Scalar, TypeForm, Types, bounded_size, is_complete};
use std::alloc::Global;
use std::sync::Arc;

// The type of arithmetic (ISO/IEC 9899:2011, 6.3.1.8).
pub(crate) fn if_unsigned(alloc: Global, unsigned: bool) -> Result<Arc<CType>, NoMemory>
    ensures { IfOk result (λ t. t.value ≡ if_unsigned unsigned) }
{
    if unsigned {
        Ok(Arc::new(alloc, CType::scalar(Scalar::UnsignedInt))?)
    } else {
        Ok(Arc::new(alloc, CType::scalar(Scalar::Int))?)
    }
}

pub(crate) fn pointer_type(alloc: Global, of: &CType) -> Result<Arc<CType>, NoMemory>
    ensures { IfOk result (λ t. t.value ≡ pointer_to of.now) }
{
    let of = of.copy(alloc)?;
    Ok(Arc::new(alloc, CType::pointer_to(alloc, of)?)?)
}

// A type of its own that is equal to this one.
pub(crate) fn owned(alloc: Global, t: &CType) -> Result<Arc<CType>, NoMemory>
    ensures { IfOk result (λ s. s.value ≡ t.now) }
{
    Ok(Arc::new(alloc, t.copy(alloc)?)?)
}

// The type once more.
pub(crate) fn shared(t: &Arc<CType>) -> Result<Arc<CType>, NoMemory>
    ensures { IfOk result (λ s. s.value ≡ t.now.value) }
{
    Ok(Arc::try_clone(t)?)
}

pub(crate) fn is_scalar(t: &CType) -> bool
    ensures { result ≡ is_scalar t.now }
{
    matches!(&t.form, TypeForm::Scalar(_) | TypeForm::Pointer(_))
}

// Whether a promoted number of the type is unsigned (6.3.1.1).
pub(crate) fn is_unsigned(s: Scalar) -> bool
    ensures { result ≡ is_unsigned s }
{
    match s {
        Scalar::UnsignedInt => true,
        Scalar::Char
        | Scalar::SignedChar
        | Scalar::UnsignedChar
        | Scalar::Short
        | Scalar::UnsignedShort
        | Scalar::Int => false,
    }
}

// Whether numbers in the common type are unsigned.
pub(crate) fn are_unsigned(s: Scalar, t: Scalar) -> bool
    ensures { result ≡ are_unsigned s t }
{
    is_unsigned(s) || is_unsigned(t)
}

// The size in bytes of a type that is complete and not too large.
pub(crate) fn laid_out_size(types: &Types, t: &CType) -> Option<u32>
    ensures { result ≡ laid_out_size types.now t.now }
{
    if is_complete(types, t) {
        bounded_size(types, t)
    } else {
        None
    }
}
