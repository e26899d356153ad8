//! The operators `&&` and `||`.

ghost use Rattle.std.specs.Prelude.{◌≡◌, IfOk};
ghost use Rattle.c_check_def.specs.Operators.{both, either};

use crate::types::{if_unsigned, is_scalar};
use base::NoMemory;
use c_typed::{ExprForm, TExpr};
use std::alloc::Global;

// `&&` of integers or pointers (ISO/IEC 9899:2011, 6.5.13p2).
pub(crate) fn both(
    alloc: Global,
    left: Box<TExpr>,
    right: Box<TExpr>,
) -> Result<Option<TExpr>, NoMemory>
    ensures { IfOk result (λ r. r ≡ both left.value right.value) }
{
    if !is_scalar(&left.ty) || !is_scalar(&right.ty) {
        return Ok(None);
    }
    let ty = if_unsigned(alloc, false)?;
    let form = ExprForm::LogicalAnd(left, right);
    Ok(Some(TExpr { ty, form }))
}

// `||` of integers or pointers (6.5.14p2).
pub(crate) fn either(
    alloc: Global,
    left: Box<TExpr>,
    right: Box<TExpr>,
) -> Result<Option<TExpr>, NoMemory>
    ensures { IfOk result (λ r. r ≡ either left.value right.value) }
{
    if !is_scalar(&left.ty) || !is_scalar(&right.ty) {
        return Ok(None);
    }
    let ty = if_unsigned(alloc, false)?;
    let form = ExprForm::LogicalOr(left, right);
    Ok(Some(TExpr { ty, form }))
}
