//! Members of structs, after `.` and `->`.

ghost use Rattle.std.specs.Prelude.{◌≡◌, IfOk};
ghost use Rattle.c_check_def.specs.Operators.{selected, selected_tag, struct_tag, member_at, member_of, member_typed};
ghost use Rattle.c_ast.specs.declared.operator.Selection.TheVariants as selection;

use crate::operands::{boxed_value, operand_type};
use crate::types::owned;
use crate::unary_operators::pointed;
use base::NoMemory;
use c_ast::Selection;
use c_check_def::Operand;
use c_type::{CType, TypeForm, Types, offset_of};
use c_typed::{PlaceForm, TPlace};
use std::alloc::Global;

/// The tag of the structure whose member `.` or `->` names; none where the operand is no structure,
/// or no pointer to one (ISO/IEC 9899:2011, 6.5.2.3).
pub fn selected_tag(op: Selection, operand: &Operand) -> Option<u32>
    ensures { result ≡ selected_tag op operand.now }
{
    match op {
        Selection::Dot => struct_tag(operand_type(operand)),
        Selection::Arrow => pointed_tag(operand),
    }
}

fn struct_tag(t: &CType) -> Option<u32>
    ensures { result ≡ struct_tag t.now }
{
    match &t.form {
        TypeForm::Struct(tag) => Some(*tag),
        _ => None,
    }
}

// The tag of the structure that a pointer, or the first element of an array, points to.
fn pointed_tag(operand: &Operand) -> Option<u32>
    ensures { result ≡ selected_tag selection.Arrow operand.now }
{
    match operand {
        Operand::Place { place, .. } => match &place.ty.form {
            TypeForm::Pointer(of) | TypeForm::Array(of, _) => struct_tag(of),
            _ => None,
        },
        Operand::Value(e) => match &e.ty.form {
            TypeForm::Pointer(of) => struct_tag(of),
            _ => None,
        },
    }
}

/// The member at this index of a complete structure, after `.`, or of the one that a pointer points
/// to, after `->`: an lvalue, which is const where the structure is; none where there is none.
pub fn member(
    alloc: Global,
    types: &Types,
    op: Selection,
    operand: Operand,
    index: u32,
) -> Result<Option<Operand>, NoMemory>
    ensures { IfOk result (λ r. r ≡ member_typed types.now op operand index) }
{
    match selected(alloc, op, operand)? {
        Some(Operand::Place { place, is_const }) => {
            member_of(alloc, types, index, place, is_const)
        }
        Some(Operand::Value(_)) | None => Ok(None),
    }
}

// The structure, or what has to be one.
fn selected(alloc: Global, op: Selection, operand: Operand) -> Result<Option<Operand>, NoMemory>
    ensures { IfOk result (λ r. r ≡ selected op operand) }
{
    match op {
        Selection::Dot => Ok(Some(operand)),
        Selection::Arrow => match boxed_value(alloc, operand)? {
            Some(e) => pointed(alloc, e),
            None => Ok(None),
        },
    }
}

fn member_of(
    alloc: Global,
    types: &Types,
    index: u32,
    place: TPlace,
    is_const: bool,
) -> Result<Option<Operand>, NoMemory>
    ensures { IfOk result (λ r. r ≡ member_of types.now index (Operand.Place place is_const)) }
{
    match &place.ty.form {
        TypeForm::Struct(tag) => {
            let tag = *tag;
            member_at(alloc, types, tag, index, place, is_const)
        }
        _ => {
            drop(place);
            Ok(None)
        }
    }
}

fn member_at(
    alloc: Global,
    types: &Types,
    tag: u32,
    index: u32,
    place: TPlace,
    is_const: bool,
) -> Result<Option<Operand>, NoMemory>
    ensures { IfOk result (λ r. r ≡ member_at types.now tag index place is_const) }
{
    if !types.has_member(tag, index) {
        drop(place);
        return Ok(None);
    }
    let place = Box::new(alloc, place)?;
    let ty = owned(alloc, &types.members(tag)[index as usize])?;
    let form = PlaceForm::Member(place, offset_of(types, tag, index));
    Ok(Some(Operand::Place {
        place: TPlace { ty, form },
        is_const,
    }))
}
