//! Types made, copied and compared.

ghost use Rattle.std.specs.Prelude.{◌≡◌, ◌↔◌, IsTrue, IfOk};
ghost use Rattle.c_type.specs.Trees.{pointer_to, array_of, scalar_type, struct_type, void_type};

use crate::scalar::Scalar;
use crate::trees::{CType, TypeForm};
use base::NoMemory;
use std::alloc::Global;

impl CType {
    /// The type `void`.
    pub fn void() -> CType
        ensures { result ≡ void_type }
    {
        CType {
            form: TypeForm::Void,
        }
    }

    /// An integer type.
    pub fn scalar(s: Scalar) -> CType
        ensures { result ≡ scalar_type s }
    {
        CType {
            form: TypeForm::Scalar(s),
        }
    }

    /// The struct of this tag.
    pub fn structure(tag: u32) -> CType
        ensures { result ≡ struct_type tag }
    {
        CType {
            form: TypeForm::Struct(tag),
        }
    }

    /// The type of pointers to values of this type.
    pub fn pointer_to(alloc: Global, of: CType) -> Result<CType, NoMemory>
        ensures { IfOk result (λ t. t ≡ pointer_to of) }
    {
        let of = Box::new(alloc, of)?;
        Ok(CType {
            form: TypeForm::Pointer(of),
        })
    }

    /// The type of arrays of so many elements of this type.
    pub fn array_of(alloc: Global, of: CType, length: u32) -> Result<CType, NoMemory>
        ensures { IfOk result (λ t. t ≡ array_of of length) }
    {
        let of = Box::new(alloc, of)?;
        Ok(CType {
            form: TypeForm::Array(of, length),
        })
    }

    /// A type equal to this one.
    pub fn copy(&self, alloc: Global) -> Result<CType, NoMemory>
        ensures { IfOk result (λ t. t ≡ self.now) }
    {
        match &self.form {
            TypeForm::Void => Ok(CType::void()),
            TypeForm::Scalar(s) => Ok(CType::scalar(*s)),
            TypeForm::Pointer(of) => CType::pointer_to(alloc, of.copy(alloc)?),
            TypeForm::Array(of, length) => CType::array_of(alloc, of.copy(alloc)?, *length),
            TypeForm::Struct(tag) => Ok(CType::structure(*tag)),
        }
    }

    /// Whether the two are the same type (ISO/IEC 9899:2011, 6.2.7).
    pub fn is_same(&self, other: &CType) -> bool
        ensures { IsTrue result ↔ (self.now ≡ other.now) }
    {
        match (&self.form, &other.form) {
            (TypeForm::Void, TypeForm::Void) => true,
            (TypeForm::Scalar(s), TypeForm::Scalar(t)) => *s == *t,
            (TypeForm::Pointer(s), TypeForm::Pointer(t)) => s.is_same(t),
            (TypeForm::Array(s, m), TypeForm::Array(t, n)) => *m == *n && s.is_same(t),
            (TypeForm::Struct(s), TypeForm::Struct(t)) => *s == *t,
            _ => false,
        }
    }
}
