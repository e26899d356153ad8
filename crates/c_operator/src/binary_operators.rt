//! Binary operators, each by one call.

ghost use Rattle.std.specs.Prelude.{◌≡◌, IfOk, option_and_then};
ghost use Rattle.c_check_def.specs.OperandValues.{value_of};
ghost use Rattle.c_check_def.specs.Operators.{binary_typed, values_joined};

use crate::arithmetic::{integers, shifted};
use crate::logical::{both, either};
use crate::operands::boxed_value;
use crate::pointer::{difference, sum};
use crate::relation::{equated, ordered};
use base::NoMemory;
use c_ast::BinaryOp;
use c_check_def::Operand;
use c_type::Types;
use c_typed::{Relation, TExpr};
use std::alloc::Global;
use val_core::Op2;

/// What a binary operator makes of two operands (ISO/IEC 9899:2011, 6.5.5 to 6.5.14); none where it
/// does not take them.
pub fn binary(
    alloc: Global,
    types: &Types,
    op: BinaryOp,
    left: Operand,
    right: Operand,
) -> Result<Option<TExpr>, NoMemory>
    ensures { IfOk result (λ r. r ≡ binary_typed types.now op left right) }
{
    match boxed_value(alloc, left) {
        Ok(Some(left)) => with_left(alloc, types, op, left, right),
        Ok(None) => {
            drop(right);
            Ok(None)
        }
        Err(fault) => {
            drop(right);
            Err(fault)
        }
    }
}

fn with_left(
    alloc: Global,
    types: &Types,
    op: BinaryOp,
    left: Box<TExpr>,
    right: Operand,
) -> Result<Option<TExpr>, NoMemory>
    ensures { IfOk result
        (λ r. r ≡ option_and_then (values_joined types.now op left.value) (value_of right)) }
{
    match boxed_value(alloc, right)? {
        Some(right) => joined(alloc, types, op, left, right),
        None => Ok(None),
    }
}

fn joined(
    alloc: Global,
    types: &Types,
    op: BinaryOp,
    left: Box<TExpr>,
    right: Box<TExpr>,
) -> Result<Option<TExpr>, NoMemory>
    ensures { IfOk result (λ r. r ≡ values_joined types.now op left.value right.value) }
{
    match op {
        BinaryOp::Multiply => integers(alloc, Op2::Mul, Op2::Mul, left, right),
        BinaryOp::Divide => integers(alloc, Op2::Div, Op2::Divu, left, right),
        BinaryOp::Remainder => integers(alloc, Op2::Rem, Op2::Remu, left, right),
        BinaryOp::BitAnd => integers(alloc, Op2::And, Op2::And, left, right),
        BinaryOp::BitOr => integers(alloc, Op2::Or, Op2::Or, left, right),
        BinaryOp::BitXor => integers(alloc, Op2::Xor, Op2::Xor, left, right),
        BinaryOp::ShiftLeft => shifted(alloc, Op2::Sll, Op2::Sll, left, right),
        BinaryOp::ShiftRight => shifted(alloc, Op2::Sra, Op2::Srl, left, right),
        BinaryOp::Add => sum(alloc, types, left, right),
        BinaryOp::Subtract => difference(alloc, types, left, right),
        BinaryOp::Less => ordered(alloc, Relation::Less, left, right),
        BinaryOp::Greater => ordered(alloc, Relation::Greater, left, right),
        BinaryOp::LessEqual => ordered(alloc, Relation::LessEqual, left, right),
        BinaryOp::GreaterEqual => ordered(alloc, Relation::GreaterEqual, left, right),
        BinaryOp::Equal => equated(alloc, Relation::Equal, left, right),
        BinaryOp::NotEqual => equated(alloc, Relation::NotEqual, left, right),
        BinaryOp::And => both(alloc, left, right),
        BinaryOp::Or => either(alloc, left, right),
    }
}
