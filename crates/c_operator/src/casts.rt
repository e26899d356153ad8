//! Casts, and `sizeof` of a type.

ghost use Rattle.std.specs.Prelude.{◌≡◌, IfOk};
ghost use Rattle.c_type.specs.Trees.{void_type};
ghost use Rattle.c_typed.specs.declared.operator.UnaryOp.TheVariants as unary_op;
ghost use Rattle.c_typed.specs.Typed.{expr, unary};
ghost use Rattle.c_typed.specs.WellTyped.{type_of};
ghost use Rattle.c_check_def.specs.Operators.{cast_by, cast_typed, size_typed};

use crate::conversion::converted;
use crate::operands::boxed_value;
use crate::types::{if_unsigned, laid_out_size};
use base::NoMemory;
use c_check_def::Operand;
use c_type::{CType, TypeForm, Types};
use c_typed::{ExprForm, TExpr, UnaryOp};
use std::alloc::Global;
use std::sync::Arc;

/// A cast of an operand from an integer type to another, or to `void` (ISO/IEC 9899:2011, 6.5.4);
/// none of others, and none of a structure.
pub fn cast(alloc: Global, to: &Arc<CType>, operand: Operand) -> Result<Option<TExpr>, NoMemory>
    ensures { IfOk result (λ r. r ≡ cast_typed to.now.value operand) }
{
    match boxed_value(alloc, operand)? {
        Some(e) => cast_value(alloc, to, e),
        None => Ok(None),
    }
}

fn cast_value(alloc: Global, to: &Arc<CType>, e: Box<TExpr>) -> Result<Option<TExpr>, NoMemory>
    ensures { IfOk result (λ r. r ≡ cast_by (type_of e.value) to.now.value e.value) }
{
    match (&e.ty.form, &to.form) {
        (_, TypeForm::Void) => Ok(Some(discarded(alloc, e)?)),
        (TypeForm::Scalar(_), TypeForm::Scalar(_)) => {
            Ok(Some(Box::into_inner(converted(alloc, e, to)?)))
        }
        _ => Ok(None),
    }
}

fn discarded(alloc: Global, e: Box<TExpr>) -> Result<TExpr, NoMemory>
    ensures { IfOk result (λ r. r ≡ expr void_type (unary unary_op.Discard e.value)) }
{
    let ty = Arc::new(alloc, CType::void())?;
    let form = ExprForm::Unary(UnaryOp::Discard, e);
    Ok(TExpr { ty, form })
}

/// `sizeof` of a type (6.5.3.4), of `unsigned int`; none of a type that is not complete or is above
/// the limit. Of an operand it is that of its type.
pub fn size_of_type(alloc: Global, types: &Types, t: &CType) -> Result<Option<TExpr>, NoMemory>
    ensures { IfOk result (λ r. r ≡ size_typed types.now t.now) }
{
    match laid_out_size(types, t) {
        Some(bytes) => {
            let ty = if_unsigned(alloc, true)?;
            let form = ExprForm::Constant(bytes);
            Ok(Some(TExpr { ty, form }))
        }
        None => Ok(None),
    }
}
