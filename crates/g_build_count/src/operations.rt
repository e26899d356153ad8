//! How many values operations have, on what their operands give.

ghost use Rattle.std.specs.Prelude.{◌≡◌, ◌≤◌};
ghost use Rattle.g_graph.specs.Count.{saturated};
ghost use Rattle.g_build_count.specs.Values.{converted_values, condition_values, compared_values, unary_values, binary_values, compound_values, conditional_extras, choice_values, repeat_values, read_values, more_carried};

use c_type::{CType, Scalar, TypeForm};
use c_typed::{BinaryOp, CompoundOp, Relation, UnaryOp};

/// Of a conversion to this type.
pub fn converted_values(t: &CType) -> u64
    ensures { result ≡ converted_values t.now }
{
    match &t.form {
        TypeForm::Scalar(Scalar::Int | Scalar::UnsignedInt) => 0,
        TypeForm::Scalar(_) => 2,
        _ => 0,
    }
}

/// Of the read of an object of this type, in a value variable or at an address.
pub fn read_values(in_memory: bool, t: &CType) -> u64
    ensures { result ≡ read_values in_memory t.now }
{
    if !in_memory {
        return 0;
    }
    match &t.form {
        TypeForm::Scalar(Scalar::SignedChar | Scalar::Short) => 4,
        _ => 2,
    }
}

/// Of a value of this type as a condition.
pub fn condition_values(t: &CType) -> u64
    ensures { result ≡ condition_values t.now }
{
    match &t.form {
        TypeForm::Pointer(_) => 8,
        _ => 0,
    }
}

fn compared_values(relation: Relation, t: &CType) -> u64
    ensures { result ≡ compared_values relation t.now }
{
    match relation {
        Relation::LessEqual | Relation::GreaterEqual => 6,
        Relation::NotEqual => match &t.form {
            TypeForm::Pointer(_) => 6,
            _ => 2,
        },
        _ => 2,
    }
}

/// The values of a unary operator on an operand of this type, without those of the operand.
pub fn unary_values(op: UnaryOp, t: &CType) -> u64
    ensures { result ≡ unary_values op t.now }
{
    match op {
        UnaryOp::Convert => converted_values(t),
        UnaryOp::Discard => 0,
        UnaryOp::Exit => 2,
        _ => 4,
    }
}

/// Of an operation on two operands, the left one of this type.
pub fn binary_values(op: BinaryOp, t: &CType) -> u64
    ensures { result ≡ binary_values op t.now }
{
    match op {
        BinaryOp::Arithmetic(_) => 2,
        BinaryOp::Compare(relation) => compared_values(relation, t),
        _ => 6,
    }
}

/// The values of the operation of a compound assignment, without those of its operands.
pub fn compound_values(op: CompoundOp) -> u64
    ensures { result ≡ compound_values op }
{
    match op {
        CompoundOp::Arithmetic { .. } => 2,
        _ => 6,
    }
}

/// The extra values of a `?:` of this type.
pub fn conditional_extras(t: &CType) -> u64
    ensures { result ≡ conditional_extras t.now }
{
    match &t.form {
        TypeForm::Void => 0,
        _ => 1,
    }
}

/// Of a Gamma of two regions, with at most one extra value.
pub fn choice_values(carried: u64, extra: u64, region0: u64, region1: u64) -> u64
    requires { extra ≤ 1 }
    ensures { result ≡ saturated (choice_values carried extra region0 region1) }
{
    carried
        .saturating_mul(5)
        .saturating_add(3 + 3 * extra)
        .saturating_add(region0)
        .saturating_add(region1)
}

/// Of a Theta.
pub fn repeat_values(carried: u64, region: u64) -> u64
    ensures { result ≡ saturated (repeat_values carried region) }
{
    carried
        .saturating_mul(3)
        .saturating_add(3)
        .saturating_add(region)
}

/// Of the carried variables, with one more that is declared.
pub fn more_carried(carried: u64, is_object: bool) -> u64
    ensures { result ≡ saturated (more_carried is_object carried) }
{
    if is_object {
        carried
    } else {
        carried.saturating_add(1)
    }
}
