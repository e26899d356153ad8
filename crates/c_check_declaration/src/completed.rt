//! Types that initialisers complete: arrays without a length.

ghost use Rattle.std.specs.Prelude.{◌≡◌, suc, Some, option_and_then, IfOk};
ghost use Rattle.c_ast.specs.Expressions.{expr_tree};
ghost use Rattle.c_type.specs.Trees.{array_of};
ghost use Rattle.c_ast.specs.Declarations.{init_tree};
ghost use Rattle.c_check_def.specs.Initialisers.{completed, completed_by, character_array};
ghost use Rattle.c_check_declaration.specs.Parts.{text_length};

use crate::parts::character_count;
use crate::shapes::count_in;
use crate::texts::text_of;
use base::{Bytes, NoMemory};
use c_ast::{Expr, Init};
use c_check_state::MaybeType;
use c_type::{CType, TypeForm};
use std::alloc::Global;
use std::sync::Arc;

// The type of a variable with its initialiser: an array whose first dimension is left empty has as
// many elements as that (ISO/IEC 9899:2011, 6.7.9p22).
pub(crate) fn completed(alloc: Global, ty: &MaybeType, init: &Init) -> Result<MaybeType, NoMemory>
    ensures { IfOk result
        (λ r. r ≡ option_and_then (completed (init_tree init.now)) ty.now) }
{
    match &ty.ty {
        Some(ty) => completed_type(alloc, ty, init),
        None => Ok(MaybeType::none()),
    }
}

fn completed_type(alloc: Global, ty: &Arc<CType>, init: &Init) -> Result<MaybeType, NoMemory>
    ensures { IfOk result (λ r. r ≡ completed (init_tree init.now) ty.now.value) }
{
    match &ty.form {
        TypeForm::Array(of, 0) => completed_array(alloc, of, init),
        _ => Ok(MaybeType::shared(Arc::try_clone(ty)?)),
    }
}

fn completed_array(alloc: Global, of: &CType, init: &Init) -> Result<MaybeType, NoMemory>
    ensures { IfOk result (λ r. r ≡
        completed_by (init_tree init.now) of.now (character_array (array_of of.now 0))) }
{
    match init {
        Init::List { first, more, .. } => {
            array(alloc, of, count_in(first.get(), more.as_slice())?)
        }
        Init::Value(e) => array(alloc, of, text_count(alloc, of, e)?),
    }
}

fn array(alloc: Global, of: &CType, length: u32) -> Result<MaybeType, NoMemory>
    ensures { IfOk result (λ r. r ≡ Some (array_of of.now length)) }
{
    MaybeType::of(alloc, CType::array_of(alloc, of.copy(alloc)?, length)?)
}

// The length of an array of these elements that a string begins, with its closing zero; 0 where the
// expression begins none.
fn text_count(alloc: Global, of: &CType, e: &Expr) -> Result<u32, NoMemory>
    ensures { IfOk result (λ r. completed_by (expr_tree e.now) of.now
        (character_array (array_of of.now 0)) ≡ Some (array_of of.now r)) }
{
    match text_of(alloc, e)? {
        Some(characters) => text_length(of, &characters),
        None => Ok(0),
    }
}

fn text_length(of: &CType, characters: &Bytes) -> Result<u32, NoMemory>
    ensures { IfOk result (λ r. r ≡ text_length (Some characters.now)
        (character_array (array_of of.now 0))) }
{
    match character_count(of, 0) {
        Some(_) => one_more(characters.as_slice().len()),
        None => Ok(0),
    }
}

// A length has 32 bits.
fn one_more(length: usize) -> Result<u32, NoMemory>
    ensures { IfOk result (λ r. r ≡ suc length) }
{
    if length < u32::MAX as usize {
        Ok(length as u32 + 1)
    } else {
        Err(NoMemory)
    }
}
