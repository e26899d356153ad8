//! Conversions of expressions, and the values that may be converted by an assignment.

ghost use Rattle.std.specs.Prelude.{◌≡◌, IfOk};
ghost use Rattle.c_check_def.specs.Types.{is_integer, same_type};
ghost use Rattle.c_check_def.specs.Conversions.{converted, may_convert, converts};
ghost use Rattle.c_typed.specs.declared.operator.UnaryOp.TheVariants as unary_op;
ghost use Rattle.c_typed.specs.Typed.{expr, unary};
ghost use Rattle.c_typed.specs.WellTyped.{type_of};

use crate::constant::is_null_constant;
use base::NoMemory;
use c_type::{CType, TypeForm};
use c_typed::{ExprForm, TExpr, UnaryOp};
use std::alloc::Global;
use std::sync::Arc;

/// Whether it is an integer type (ISO/IEC 9899:2011, 6.2.5p17).
pub fn is_integer(t: &CType) -> bool
    ensures { result ≡ is_integer t.now }
{
    matches!(&t.form, TypeForm::Scalar(_))
}

/// Whether the two are the same type (6.2.7).
pub fn same_type(s: &CType, t: &CType) -> bool
    ensures { result ≡ same_type s.now t.now }
{
    s.is_same(t)
}

/// The expression in this type, whatever its own: it is converted where the types differ.
pub fn converted(alloc: Global, e: Box<TExpr>, to: &Arc<CType>) -> Result<Box<TExpr>, NoMemory>
    ensures { IfOk result (λ r. r.value ≡ converted to.now.value e.value) }
{
    if same_type(&e.ty, to) {
        return Ok(e);
    }
    Ok(Box::new(alloc, conversion(e, to)?)?)
}

// The expression under a conversion.
fn conversion(e: Box<TExpr>, to: &Arc<CType>) -> Result<TExpr, NoMemory>
    ensures { IfOk result (λ r. r ≡ expr to.now.value (unary unary_op.Convert e.value)) }
{
    let ty = Arc::try_clone(to)?;
    let form = ExprForm::Unary(UnaryOp::Convert, e);
    Ok(TExpr { ty, form })
}

/// Whether a value converts to the type of what it is assigned to, passed to or returned as
/// (6.5.16.1): an integer to an integer type, or a pointer of the same type or a null constant to a
/// pointer type.
pub fn may_convert(e: &TExpr, to: &CType) -> bool
    ensures { result ≡ may_convert (type_of e.now) to.now e.now }
{
    match (&e.ty.form, &to.form) {
        (TypeForm::Scalar(_), TypeForm::Scalar(_)) => true,
        (TypeForm::Scalar(_), TypeForm::Pointer(_)) => is_null_constant(e),
        (TypeForm::Pointer(s), TypeForm::Pointer(t)) => same_type(s, t),
        _ => false,
    }
}

/// A value in the type of what it is assigned to, passed to or returned as; none where it does not
/// convert (`may_convert`).
pub fn converts(alloc: Global, e: TExpr, to: &Arc<CType>) -> Result<Option<TExpr>, NoMemory>
    ensures { IfOk result (λ r. r ≡ converts to.now.value e) }
{
    if !may_convert(&e, to) {
        drop(e);
        return Ok(None);
    }
    if same_type(&e.ty, to) {
        return Ok(Some(e));
    }
    Ok(Some(conversion(Box::new(alloc, e)?, to)?))
}
