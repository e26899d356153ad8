//! Subscripts of arrays and pointers.

ghost use Rattle.std.specs.Prelude.{◌≡◌, IfOk};
ghost use Rattle.c_check_def.specs.Operators.{has_const_elements, element, index_typed};

use crate::binary_operators::binary;
use crate::types::owned;
use base::NoMemory;
use c_ast::BinaryOp;
use c_check_def::Operand;
use c_type::{TypeForm, Types};
use c_typed::{PlaceForm, TExpr, TPlace};
use std::alloc::Global;

/// What `[]` makes of a pointer and an integer, in either order (ISO/IEC 9899:2011, 6.5.2.1): an
/// lvalue, which is const where it is an element of an array that is; none of others.
pub fn index(
    alloc: Global,
    types: &Types,
    left: Operand,
    right: Operand,
) -> Result<Option<Operand>, NoMemory>
    ensures { IfOk result (λ r. r ≡ index_typed types.now left right) }
{
    let is_const = has_const_elements(&left) || has_const_elements(&right);
    match binary(alloc, types, BinaryOp::Add, left, right)? {
        Some(sum) => element(alloc, is_const, Box::new(alloc, sum)?),
        None => Ok(None),
    }
}

// Whether it is an array that is const.
fn has_const_elements(operand: &Operand) -> bool
    ensures { result ≡ has_const_elements operand.now }
{
    match operand {
        Operand::Place { place, is_const } => match &place.ty.form {
            TypeForm::Array(_, _) => *is_const,
            _ => false,
        },
        Operand::Value(_) => false,
    }
}

// What a sum with a pointer points to.
fn element(alloc: Global, is_const: bool, sum: Box<TExpr>) -> Result<Option<Operand>, NoMemory>
    ensures { IfOk result (λ r. r ≡ element is_const sum.value) }
{
    match &sum.ty.form {
        TypeForm::Pointer(of) => {
            let ty = owned(alloc, of)?;
            let form = PlaceForm::At(sum);
            Ok(Some(Operand::Place {
                place: TPlace { ty, form },
                is_const,
            }))
        }
        _ => Ok(None),
    }
}
