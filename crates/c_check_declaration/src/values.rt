//! The values that initialisers write.
#![tactic(auto, using(crate::proofs::PieceLemmas::grows))]

ghost use Rattle.std.specs.Prelude.{◌≡◌, List, Bool, Some, option_map, slice_get, IfOk, OnOk};
ghost use Rattle.c_ast.specs.Expressions.{expr_tree};
ghost use Rattle.c_type.specs.Trees.{TypeTree};
ghost use Rattle.c_typed.specs.Typed.{expr, address};
ghost use Rattle.c_check_def.specs.State.{Global as GlobalRecord, if_some, or_broken};
ghost use Rattle.c_check_def.specs.declared.refusal_kind.RefusalKind.TheVariants.{BadInitialiser};
ghost use Rattle.c_check_def.specs.Initialisers.{both_joined, value, value_at, value_read, converted, is_constant, is_address_term, is_address, is_variable, characters as characters_begun};
ghost use Rattle.c_check_state.specs.Frames.{KeepsDeclarations};
ghost use Rattle.c_check_declaration.specs.Pieces.{if_made};

use crate::pieces::Pieces;
use base::{Bytes, NoMemory};
use c_ast::Expr;
use c_check_def::{Operand, RefusalKind};
use c_check_expression::expression;
use c_check_state::{MaybeType, State, Term};
use c_check_term::{passed, term_constant};
use c_type::TypeForm;
use c_typed::{ExprForm, PlaceForm, TExpr, TPlace};

// Appends the value of an expression, and tells whether no rule is broken within it.
pub(crate) fn value(
    state: &mut State,
    is_static: bool,
    ty: &MaybeType,
    object_offset: u64,
    e: &Expr,
    out: &mut Pieces,
) -> Result<bool, NoMemory>
    ensures made { IfOk result (λ made. if_made made out.new ≡ both_joined (Some out.old)
        (value is_static ty.now object_offset (expr_tree e.now) state.old).0) }
    ensures state { OnOk result
        (state.new ≡ (value is_static ty.now object_offset (expr_tree e.now) state.old).1) }
    ensures keeps { OnOk result (KeepsDeclarations state.old state.new) }
{
    let a = expression(state, e)?;
    value_read(state, is_static, ty, object_offset, e.start(), a, out)
}

fn value_read(
    state: &mut State,
    is_static: bool,
    ty: &MaybeType,
    object_offset: u64,
    offset: u32,
    a: Term,
    out: &mut Pieces,
) -> Result<bool, NoMemory>
    ensures made { IfOk result (λ made. if_made made out.new ≡ both_joined (Some out.old)
        (value_read is_static ty.now object_offset offset a state.old).0) }
    ensures state { OnOk result
        (state.new ≡ (value_read is_static ty.now object_offset offset a state.old).1) }
    ensures keeps { OnOk result (KeepsDeclarations state.old state.new) }
{
    let wrong = is_static && !is_constant(state, &a);
    state.breaks_if(wrong, RefusalKind::NotConstant, offset);
    let made = converted_term(state, ty, object_offset, offset, a, out)?;
    Ok(made && !wrong)
}

fn converted_term(
    state: &mut State,
    ty: &MaybeType,
    object_offset: u64,
    offset: u32,
    a: Term,
    out: &mut Pieces,
) -> Result<bool, NoMemory>
    ensures made { IfOk result (λ made. if_made made out.new ≡ both_joined (Some out.old)
        (if_some a (converted ty.now object_offset offset) state.old).0) }
    ensures state { OnOk result
        (state.new ≡ (if_some a (converted ty.now object_offset offset) state.old).1) }
    ensures keeps { OnOk result (KeepsDeclarations state.old state.new) }
{
    match a.operand {
        Some(operand) => converted(
            state,
            ty,
            object_offset,
            offset,
            Box::into_inner(operand),
            out,
        ),
        None => Ok(false),
    }
}

// Against no type a value is only read.
fn converted(
    state: &mut State,
    ty: &MaybeType,
    object_offset: u64,
    offset: u32,
    a: Operand,
    out: &mut Pieces,
) -> Result<bool, NoMemory>
    ensures made { IfOk result (λ made. if_made made out.new ≡ both_joined (Some out.old)
        (converted ty.now object_offset offset a state.old).0) }
    ensures state { OnOk result
        (state.new ≡ (converted ty.now object_offset offset a state.old).1) }
    ensures keeps { OnOk result (KeepsDeclarations state.old state.new) }
{
    match &ty.ty {
        Some(ty) => {
            let e = passed(state.alloc(), ty, a)?;
            put(state, object_offset, offset, e, out)
        }
        None => {
            drop(a);
            Ok(true)
        }
    }
}

// Appends a value, where it converts.
fn put(
    state: &mut State,
    object_offset: u64,
    offset: u32,
    e: Option<TExpr>,
    out: &mut Pieces,
) -> Result<bool, NoMemory>
    ensures made { IfOk result (λ made. if_made made out.new ≡ both_joined (Some out.old)
        (or_broken BadInitialiser offset (option_map (value_at object_offset) e) state.old).0) }
    ensures state { OnOk result (state.new ≡
        (or_broken BadInitialiser offset (option_map (value_at object_offset) e) state.old).1) }
    ensures keeps { OnOk result (KeepsDeclarations state.old state.new) }
{
    match e {
        Some(e) => {
            out.push_value(object_offset, e)?;
            Ok(true)
        }
        None => {
            state.breaks(RefusalKind::BadInitialiser, offset);
            Ok(false)
        }
    }
}

// Whether a term is constant at file scope (ISO/IEC 9899:2011, 6.6p7).
fn is_constant(state: &State, a: &Term) -> bool
    ensures { result ≡ is_constant state.now.globals a.now }
{
    term_constant(a).is_some() || is_address_term(state, a)
}

fn is_address_term(state: &State, a: &Term) -> bool
    ensures { result ≡ is_address_term state.now.globals a.now }
{
    match &a.operand {
        Some(operand) => is_address(state, operand),
        None => false,
    }
}

// The name of an array, a string, or the address of a variable.
fn is_address(state: &State, a: &Operand) -> bool
    ensures { result ≡ is_address state.now.globals a.now }
{
    match a {
        Operand::Place { place, .. } => is_global_array(place),
        Operand::Value(e) => is_address_value(state, e),
    }
}

fn is_global_array(p: &TPlace) -> bool
    ensures { (gs : List GlobalRecord) (is_const : Bool) →
        result ≡ is_address gs (Operand.Place p.now is_const) }
{
    matches!(
        (&p.ty.form, &p.form),
        (TypeForm::Array(..), PlaceForm::Global(_))
    )
}

fn is_address_value(state: &State, e: &TExpr) -> bool
    ensures { result ≡ is_address state.now.globals (Operand.Value e.now) }
{
    match &e.form {
        ExprForm::Address(of) => is_variable_place(state, of),
        _ => false,
    }
}

fn is_variable_place(state: &State, p: &TPlace) -> bool
    ensures { (t : TypeTree) →
        result ≡ is_address state.now.globals (Operand.Value (expr t (address p.now))) }
{
    match &p.form {
        PlaceForm::Global(number) => is_variable(state, *number),
        _ => false,
    }
}

fn is_variable(state: &State, number: u32) -> bool
    ensures { result ≡ is_variable (slice_get state.now.globals number) }
{
    match state.global(number) {
        Some(g) => g.is_variable,
        None => false,
    }
}

// Appends the characters of a string, which an array of this length has room for, but perhaps for
// the closing zero (6.7.9p14).
pub(crate) fn characters_begun(
    state: &mut State,
    object_offset: u64,
    offset: u32,
    characters: Bytes,
    length: u32,
    out: &mut Pieces,
) -> Result<bool, NoMemory>
    ensures made { IfOk result (λ made. if_made made out.new ≡ both_joined (Some out.old)
        (characters_begun object_offset offset characters length state.old).0) }
    ensures state { OnOk result
        (state.new ≡ (characters_begun object_offset offset characters length state.old).1) }
    ensures keeps { OnOk result (KeepsDeclarations state.old state.new) }
{
    if characters.as_slice().len() <= length as usize {
        out.push_characters(object_offset, characters)?;
        Ok(true)
    } else {
        state.breaks(RefusalKind::BadInitialiser, offset);
        Ok(false)
    }
}
