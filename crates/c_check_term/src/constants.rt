//! Numbers, characters and string literals as terms.

ghost use Rattle.std.specs.Prelude.{◌≡◌, Some, IfOk, OnOk, map, ◌∷◌, []};
ghost use Rattle.c_lex.specs.declared.token.TokenKind.TheVariants as kind;
ghost use Rattle.c_type.specs.Trees.{scalar_type};
ghost use Rattle.c_typed.specs.Typed.{characters_at, expr, constant};
ghost use Rattle.c_typed.specs.ProgramEncoding.{written_of};
ghost use Rattle.c_check_def.specs.Operands.{constant_by, string, string_type};
ghost use Rattle.c_check_state.specs.Frames.{KeepsDeclarations};

use crate::names::global;
use base::{Bytes, NoMemory};
use c_check_def::Operand;
use c_check_state::{GlobalObject, MaybeType, State, Term};
use c_type::{CType, Scalar};
use c_typed::{ExprForm, TExpr, Written};
use std::alloc::Global;
use std::sync::Arc;

/// A number (ISO/IEC 9899:2011, 6.4.4.1).
pub fn number(alloc: Global, value: u32, unsigned: bool) -> Result<Term, NoMemory>
    ensures { IfOk result (λ r. r ≡ constant_by (kind.Number value unsigned)) }
{
    if unsigned {
        constant(alloc, Scalar::UnsignedInt, value)
    } else {
        constant(alloc, Scalar::Int, value)
    }
}

/// A character constant, of type `int` (6.4.4.4).
pub fn character(alloc: Global, value: u8) -> Result<Term, NoMemory>
    ensures { IfOk result (λ r. r ≡ constant_by (kind.Char value)) }
{
    constant(alloc, Scalar::Int, u32::from(value))
}

fn constant(alloc: Global, scalar: Scalar, value: u32) -> Result<Term, NoMemory>
    ensures { IfOk result (λ r. r ≡
        Some (Operand.Value (expr (scalar_type scalar) (constant value)))) }
{
    let ty = Arc::new(alloc, CType::scalar(scalar))?;
    let form = ExprForm::Constant(value);
    Term::of(alloc, Operand::Value(TExpr { ty, form }))
}

/// A string literal at an offset (6.4.5): an array that is a global.
pub fn string(state: &mut State, offset: u32, characters: Bytes) -> Result<Term, NoMemory>
    ensures value { IfOk result (λ r. r ≡ (string offset characters state.old).0) }
    ensures state { OnOk result (state.new ≡ (string offset characters state.old).1) }
    ensures keeps { OnOk result (KeepsDeclarations state.old state.new) }
{
    let alloc = state.alloc();
    let ty = string_type(alloc, &characters)?;
    let shared = ty.copy()?;
    let written = one_written(alloc, characters)?;
    let number = state.add_global(GlobalObject {
        offset,
        ty: shared,
        is_variable: false,
        fixed: true,
        written,
    })?;
    global(alloc, ty, number, false)
}

// The array that a string literal is, with its closing zero.
fn string_type(alloc: Global, characters: &Bytes) -> Result<MaybeType, NoMemory>
    ensures { IfOk result (λ r. r ≡ Some (string_type characters.now)) }
{
    let length = characters.as_slice().len();
    if length >= u32::MAX as usize {
        return Err(NoMemory);
    }
    let ty = CType::array_of(alloc, CType::scalar(Scalar::Char), length as u32 + 1)?;
    MaybeType::of(alloc, ty)
}

fn one_written(alloc: Global, characters: Bytes) -> Result<Vec<Written>, NoMemory>
    ensures { IfOk result (λ r. map written_of r.items ≡ characters_at 0 characters ∷ []) }
{
    let mut written = Vec::new(alloc);
    written.push(Written::Characters {
        offset: 0,
        characters,
    })?;
    Ok(written)
}
