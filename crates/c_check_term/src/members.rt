//! Members of structs as terms.

ghost use Rattle.std.specs.Prelude.{◌≡◌, Some, IfOk, OnOk};
ghost use Rattle.c_check_def.specs.Operands.{selected, member_named, member_numbered};
ghost use Rattle.c_check_state.specs.Frames.{KeepsDeclarations};

use crate::outcomes::or_broken;
use base::{Name, NoMemory};
use c_ast::Selection;
use c_check_def::{Operand, RefusalKind};
use c_check_state::{State, Term};

/// The member that `.` or `->` at an offset names, the name being at an offset of its own
/// (ISO/IEC 9899:2011, 6.5.2.3).
pub fn selected(
    state: &mut State,
    op: Selection,
    offset: u32,
    name: &Name,
    name_offset: u32,
    a: Term,
) -> Result<Term, NoMemory>
    ensures value { IfOk result
        (λ r. r ≡ (selected op offset name.now name_offset a state.old).0) }
    ensures state { OnOk result
        (state.new ≡ (selected op offset name.now name_offset a state.old).1) }
    ensures keeps { OnOk result (KeepsDeclarations state.old state.new) }
{
    match a.operand {
        Some(a) => selected_of(state, op, offset, name, name_offset, a),
        None => Ok(Term::none()),
    }
}

fn selected_of(
    state: &mut State,
    op: Selection,
    offset: u32,
    name: &Name,
    name_offset: u32,
    a: Box<Operand>,
) -> Result<Term, NoMemory>
    ensures value { IfOk result
        (λ r. r ≡ (selected op offset name.now name_offset (Some a.value) state.old).0) }
    ensures state { OnOk result
        (state.new ≡ (selected op offset name.now name_offset (Some a.value) state.old).1) }
    ensures keeps { OnOk result (KeepsDeclarations state.old state.new) }
{
    match c_operator::selected_tag(op, &a) {
        Some(tag) => member_named(state, op, name, name_offset, a, tag),
        None => {
            drop(a);
            state.breaks(RefusalKind::BadOperands, offset);
            Ok(Term::none())
        }
    }
}

fn member_named(
    state: &mut State,
    op: Selection,
    name: &Name,
    offset: u32,
    a: Box<Operand>,
    tag: u32,
) -> Result<Term, NoMemory>
    ensures value { IfOk result
        (λ r. r ≡ (member_named op name.now offset a.value tag state.old).0) }
    ensures state { OnOk result
        (state.new ≡ (member_named op name.now offset a.value tag state.old).1) }
    ensures keeps { OnOk result (KeepsDeclarations state.old state.new) }
{
    match state.member_number(tag, name) {
        Some(number) => member_numbered(state, op, offset, a, number),
        None => {
            drop(a);
            state.breaks(RefusalKind::Unknown, offset);
            Ok(Term::none())
        }
    }
}

fn member_numbered(
    state: &mut State,
    op: Selection,
    offset: u32,
    a: Box<Operand>,
    number: u32,
) -> Result<Term, NoMemory>
    ensures value { IfOk result
        (λ r. r ≡ (member_numbered op offset a.value (Some number) state.old).0) }
    ensures state { OnOk result
        (state.new ≡ (member_numbered op offset a.value (Some number) state.old).1) }
    ensures keeps { OnOk result (KeepsDeclarations state.old state.new) }
{
    let (alloc, types) = (state.alloc(), state.types());
    let made = c_operator::member(alloc, types, op, Box::into_inner(a), number)?;
    or_broken(state, RefusalKind::Unknown, offset, made)
}
