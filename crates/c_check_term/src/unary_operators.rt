//! What unary operators make of terms.

ghost use Rattle.std.specs.Prelude.{◌≡◌, IfOk, OnOk};
ghost use Rattle.c_check_def.specs.Operands.{unary, unary_of, address, take_address};
ghost use Rattle.c_check_state.specs.Frames.{KeepsDeclarations};

use crate::outcomes::or_broken;
use base::NoMemory;
use c_ast::UnaryOp;
use c_check_def::{Operand, RefusalKind};
use c_check_state::{State, Term};
use c_typed::PlaceForm;

/// What `&`, `*`, `+`, `-`, `~` or `!` at an offset makes of a term (ISO/IEC 9899:2011, 6.5.3). `&`
/// takes the address of a variable that it names.
pub fn unary(state: &mut State, op: UnaryOp, offset: u32, a: Term) -> Result<Term, NoMemory>
    ensures value { IfOk result (λ r. r ≡ (unary op offset a state.old).0) }
    ensures state { OnOk result (state.new ≡ (unary op offset a state.old).1) }
    ensures keeps { OnOk result (KeepsDeclarations state.old state.new) }
{
    match a.operand {
        Some(a) => unary_of(state, op, offset, a),
        None => Ok(Term::none()),
    }
}

fn unary_of(state: &mut State, op: UnaryOp, offset: u32, a: Box<Operand>) -> Result<Term, NoMemory>
    ensures value { IfOk result (λ r. r ≡ (unary_of op offset a.value state.old).0) }
    ensures state { OnOk result (state.new ≡ (unary_of op offset a.value state.old).1) }
    ensures keeps { OnOk result (KeepsDeclarations state.old state.new) }
{
    if let UnaryOp::AddressOf = op {
        return address(state, offset, a);
    }
    let made = c_operator::unary(state.alloc(), op, Box::into_inner(a))?;
    or_broken(state, RefusalKind::BadOperands, offset, made)
}

fn address(state: &mut State, offset: u32, a: Box<Operand>) -> Result<Term, NoMemory>
    ensures value { IfOk result (λ r. r ≡ (address offset a.value state.old).0) }
    ensures state { OnOk result (state.new ≡ (address offset a.value state.old).1) }
    ensures keeps { OnOk result (KeepsDeclarations state.old state.new) }
{
    take_address(state, &a);
    let made = c_operator::unary(state.alloc(), UnaryOp::AddressOf, Box::into_inner(a))?;
    or_broken(state, RefusalKind::NotAssignable, offset, made)
}

// Notes that the address of a variable is taken, where the operand is one.
fn take_address(state: &mut State, a: &Operand)
    ensures state { state.new ≡ (take_address a.now state.old).1 }
    ensures keeps { KeepsDeclarations state.old state.new }
{
    if let Operand::Place { place, .. } = a {
        if let PlaceForm::Local(slot) = &place.form {
            state.take_variable(*slot);
        }
    }
}
