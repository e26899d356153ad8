//! Values of constant expressions, and the sizes that dimensions give.

ghost use Rattle.std.specs.Prelude.{◌≡◌, None, Some, option_and_then};
ghost use Rattle.c_check_def.specs.Constants.{constant_value};
ghost use Rattle.c_check_def.specs.OperandValues.{value_of, place_value};
ghost use Rattle.c_typed.specs.Typed.{PlaceTree};
ghost use Rattle.c_check_def.specs.Operands.{term_constant};
ghost use Rattle.c_check_def.specs.Expressions.{size, size_by};
ghost use Rattle.c_check_state.specs.Frames.{KeepsDeclarations};

use base::MOST_TYPE_BYTES;
use c_check_def::{Operand, RefusalKind};
use c_check_state::{State, Term};
use c_operator::constant_value;
use c_type::{CType, TypeForm};

/// The word of an integer constant expression (ISO/IEC 9899:2011, 6.6p6); none of another term.
pub fn term_constant(a: &Term) -> Option<u32>
    ensures { result ≡ term_constant a.now }
{
    match &a.operand {
        Some(a) => operand_constant(a),
        None => None,
    }
}

// What an object holds is no constant.
fn operand_constant(a: &Operand) -> Option<u32>
    ensures { result ≡ option_and_then constant_value (value_of a.now) }
{
    match a {
        Operand::Value(e) => constant_value(e),
        Operand::Place { place, .. } => place_constant(&place.ty),
    }
}

fn place_constant(t: &CType) -> Option<u32>
    ensures { (p : PlaceTree) → result ≡ option_and_then constant_value (place_value t.now p) }
{
    match &t.form {
        TypeForm::Scalar(_) | TypeForm::Pointer(_) => None,
        TypeForm::Array(_, _) | TypeForm::Void | TypeForm::Struct(_) => None,
    }
}

/// The size that the dimension of an array at an offset gives: a constant from 1 to the number of
/// bytes that a type may have (6.7.6.2).
pub fn size(state: &mut State, offset: u32, a: &Term) -> Option<u32>
    ensures value { result ≡ (size offset a.now state.old).0 }
    ensures state { state.new ≡ (size offset a.now state.old).1 }
    ensures keeps { KeepsDeclarations state.old state.new }
{
    let size = size_in(a);
    if size.is_none() {
        state.breaks(RefusalKind::NotConstant, offset);
    }
    size
}

fn size_in(a: &Term) -> Option<u32>
    ensures { result ≡ option_and_then size_by (term_constant a.now) }
{
    match term_constant(a) {
        Some(word) => size_by(word),
        None => None,
    }
}

fn size_by(word: u32) -> Option<u32>
    ensures { result ≡ size_by word }
{
    if 1 <= word && word <= MOST_TYPE_BYTES {
        Some(word)
    } else {
        None
    }
}
