//! What binary operators, `?:`, subscripts and casts make of terms.

ghost use Rattle.std.specs.Prelude.{◌≡◌, IfOk, OnOk, option_map};
ghost use Rattle.c_check_def.specs.OperandValues.{operand_type};
ghost use Rattle.c_check_def.specs.Operators.{binary_typed, conditional_typed, index_typed, cast_typed, size_typed};
ghost use Rattle.c_check_def.specs.declared.refusal_kind.RefusalKind.TheVariants.{BadOperands};
ghost use Rattle.c_check_def.specs.State.{or_broken};
ghost use Rattle.c_check_def.specs.Operands.{term_of, binary, conditional, indexed, cast, measured};
ghost use Rattle.c_check_state.specs.Frames.{KeepsDeclarations};

use crate::outcomes::{or_broken, value_or_broken};
use base::NoMemory;
use c_ast::BinaryOp;
use c_check_def::{Operand, RefusalKind};
use c_check_state::{MaybeType, State, Term};
use c_type::CType;
use std::sync::Arc;

/// What a binary operator at an offset makes of two terms (ISO/IEC 9899:2011, 6.5.5 to 6.5.14).
pub fn binary(
    state: &mut State,
    op: BinaryOp,
    offset: u32,
    a: Term,
    b: Term,
) -> Result<Term, NoMemory>
    ensures value { IfOk result (λ r. r ≡ (binary op offset a b state.old).0) }
    ensures state { OnOk result (state.new ≡ (binary op offset a b state.old).1) }
    ensures keeps { OnOk result (KeepsDeclarations state.old state.new) }
{
    match a.operand {
        Some(a) => match b.operand {
            Some(b) => binary_of(state, op, offset, a, b),
            None => {
                drop(a);
                Ok(Term::none())
            }
        },
        None => {
            drop(b);
            Ok(Term::none())
        }
    }
}

fn binary_of(
    state: &mut State,
    op: BinaryOp,
    offset: u32,
    a: Box<Operand>,
    b: Box<Operand>,
) -> Result<Term, NoMemory>
    ensures value { IfOk result (λ r. r ≡ (or_broken BadOperands offset
        (term_of (binary_typed state.old.structs op a.value b.value)) state.old).0) }
    ensures state { OnOk result (state.new ≡ (or_broken BadOperands offset
        (term_of (binary_typed state.old.structs op a.value b.value)) state.old).1) }
    ensures keeps { OnOk result (KeepsDeclarations state.old state.new) }
{
    let (alloc, types) = (state.alloc(), state.types());
    let made = c_operator::binary(alloc, types, op, Box::into_inner(a), Box::into_inner(b))?;
    value_or_broken(state, RefusalKind::BadOperands, offset, made)
}

/// What `?:` makes of three terms, `?` being at the offset (6.5.15).
pub fn conditional(
    state: &mut State,
    offset: u32,
    test: Term,
    a: Term,
    b: Term,
) -> Result<Term, NoMemory>
    ensures value { IfOk result (λ r. r ≡ (conditional offset test a b state.old).0) }
    ensures state { OnOk result (state.new ≡ (conditional offset test a b state.old).1) }
    ensures keeps { OnOk result (KeepsDeclarations state.old state.new) }
{
    match (test.operand, a.operand, b.operand) {
        (Some(test), Some(a), Some(b)) => conditional_of(state, offset, test, a, b),
        (test, a, b) => {
            drop(test);
            drop(a);
            drop(b);
            Ok(Term::none())
        }
    }
}

fn conditional_of(
    state: &mut State,
    offset: u32,
    test: Box<Operand>,
    a: Box<Operand>,
    b: Box<Operand>,
) -> Result<Term, NoMemory>
    ensures value { IfOk result (λ r. r ≡ (or_broken BadOperands offset
        (term_of (conditional_typed test.value a.value b.value)) state.old).0) }
    ensures state { OnOk result (state.new ≡ (or_broken BadOperands offset
        (term_of (conditional_typed test.value a.value b.value)) state.old).1) }
    ensures keeps { OnOk result (KeepsDeclarations state.old state.new) }
{
    let test = Box::into_inner(test);
    let made = c_operator::conditional(
        state.alloc(),
        test,
        Box::into_inner(a),
        Box::into_inner(b),
    )?;
    value_or_broken(state, RefusalKind::BadOperands, offset, made)
}

/// What `[]` makes of two terms, `[` being at the offset (6.5.2.1).
pub fn indexed(state: &mut State, offset: u32, a: Term, b: Term) -> Result<Term, NoMemory>
    ensures value { IfOk result (λ r. r ≡ (indexed offset a b state.old).0) }
    ensures state { OnOk result (state.new ≡ (indexed offset a b state.old).1) }
    ensures keeps { OnOk result (KeepsDeclarations state.old state.new) }
{
    match a.operand {
        Some(a) => match b.operand {
            Some(b) => indexed_of(state, offset, a, b),
            None => {
                drop(a);
                Ok(Term::none())
            }
        },
        None => {
            drop(b);
            Ok(Term::none())
        }
    }
}

fn indexed_of(
    state: &mut State,
    offset: u32,
    a: Box<Operand>,
    b: Box<Operand>,
) -> Result<Term, NoMemory>
    ensures value { IfOk result (λ r. r ≡ (or_broken BadOperands offset
        (index_typed state.old.structs a.value b.value) state.old).0) }
    ensures state { OnOk result (state.new ≡ (or_broken BadOperands offset
        (index_typed state.old.structs a.value b.value) state.old).1) }
    ensures keeps { OnOk result (KeepsDeclarations state.old state.new) }
{
    let (alloc, types) = (state.alloc(), state.types());
    let made = c_operator::index(alloc, types, Box::into_inner(a), Box::into_inner(b))?;
    or_broken(state, RefusalKind::BadOperands, offset, made)
}

/// A cast of a term to a type, `(` being at the offset (6.5.4).
pub fn cast(state: &mut State, offset: u32, to: MaybeType, a: Term) -> Result<Term, NoMemory>
    ensures value { IfOk result (λ r. r ≡ (cast offset to a state.old).0) }
    ensures state { OnOk result (state.new ≡ (cast offset to a state.old).1) }
    ensures keeps { OnOk result (KeepsDeclarations state.old state.new) }
{
    match to.ty {
        Some(to) => match a.operand {
            Some(a) => cast_of(state, offset, &to, a),
            None => Ok(Term::none()),
        },
        None => {
            drop(a);
            Ok(Term::none())
        }
    }
}

fn cast_of(
    state: &mut State,
    offset: u32,
    to: &Arc<CType>,
    a: Box<Operand>,
) -> Result<Term, NoMemory>
    ensures value { IfOk result (λ r. r ≡ (or_broken BadOperands offset
        (term_of (cast_typed to.now.value a.value)) state.old).0) }
    ensures state { OnOk result (state.new ≡ (or_broken BadOperands offset
        (term_of (cast_typed to.now.value a.value)) state.old).1) }
    ensures keeps { OnOk result (KeepsDeclarations state.old state.new) }
{
    let made = c_operator::cast(state.alloc(), to, Box::into_inner(a))?;
    value_or_broken(state, RefusalKind::BadOperands, offset, made)
}

/// The size of a type, `sizeof` being at the offset (6.5.3.4).
pub fn measured_type(state: &mut State, offset: u32, t: MaybeType) -> Result<Term, NoMemory>
    ensures value { IfOk result (λ r. r ≡ (measured offset t state.old).0) }
    ensures state { OnOk result (state.new ≡ (measured offset t state.old).1) }
    ensures keeps { OnOk result (KeepsDeclarations state.old state.new) }
{
    match t.ty {
        Some(t) => measured_of(state, offset, &t),
        None => Ok(Term::none()),
    }
}

/// The size of the type of a term, `sizeof` being at the offset.
pub fn measured_term(state: &mut State, offset: u32, a: Term) -> Result<Term, NoMemory>
    ensures value { IfOk result
        (λ r. r ≡ (measured offset (option_map operand_type a) state.old).0) }
    ensures state { OnOk result
        (state.new ≡ (measured offset (option_map operand_type a) state.old).1) }
    ensures keeps { OnOk result (KeepsDeclarations state.old state.new) }
{
    match a.operand {
        Some(a) => measured_of(state, offset, c_operator::operand_type(&a)),
        None => Ok(Term::none()),
    }
}

fn measured_of(state: &mut State, offset: u32, t: &CType) -> Result<Term, NoMemory>
    ensures value { IfOk result (λ r. r ≡ (or_broken BadOperands offset
        (term_of (size_typed state.old.structs t.now)) state.old).0) }
    ensures state { OnOk result (state.new ≡ (or_broken BadOperands offset
        (term_of (size_typed state.old.structs t.now)) state.old).1) }
    ensures keeps { OnOk result (KeepsDeclarations state.old state.new) }
{
    let made = c_operator::size_of_type(state.alloc(), state.types(), t)?;
    value_or_broken(state, RefusalKind::BadOperands, offset, made)
}
