//! The values of whole expressions, as statements take them.

ghost use Rattle.std.specs.Prelude.{◌≡◌, IfOk, OnOk};
ghost use Rattle.c_check_def.specs.State.{or_broken};
ghost use Rattle.c_check_def.specs.declared.refusal_kind.RefusalKind.TheVariants.{BadOperands};
ghost use Rattle.c_check_def.specs.Statements.{whole, condition, subject, integer_of};
ghost use Rattle.c_check_state.specs.Frames.{KeepsDeclarations};

use base::NoMemory;
use c_check_def::{Operand, RefusalKind};
use c_check_state::{State, Term};
use c_typed::TExpr;
use std::alloc::Global;

/// The value of a whole expression at an offset, which may be of type `void` (ISO/IEC 9899:2011,
/// 6.8.3).
pub fn whole(state: &mut State, offset: u32, a: Term) -> Result<Option<TExpr>, NoMemory>
    ensures value { IfOk result (λ r. r ≡ (whole offset a state.old).0) }
    ensures state { OnOk result (state.new ≡ (whole offset a state.old).1) }
    ensures keeps { OnOk result (KeepsDeclarations state.old state.new) }
{
    match a.operand {
        Some(a) => {
            let e = c_operator::value(state.alloc(), Box::into_inner(a))?;
            Ok(or_broken(state, offset, e))
        }
        None => Ok(None),
    }
}

/// A condition, of integer or pointer type, of the statement at an offset (6.8.4.1, 6.8.5).
pub fn condition(state: &mut State, offset: u32, a: Term) -> Result<Option<TExpr>, NoMemory>
    ensures value { IfOk result (λ r. r ≡ (condition offset a state.old).0) }
    ensures state { OnOk result (state.new ≡ (condition offset a state.old).1) }
    ensures keeps { OnOk result (KeepsDeclarations state.old state.new) }
{
    match a.operand {
        Some(a) => {
            let e = c_operator::condition(state.alloc(), Box::into_inner(a))?;
            Ok(or_broken(state, offset, e))
        }
        None => Ok(None),
    }
}

/// The promoted value that the `switch` at an offset goes by (6.8.4.2).
pub fn subject(state: &mut State, offset: u32, a: Term) -> Result<Option<TExpr>, NoMemory>
    ensures value { IfOk result (λ r. r ≡ (subject offset a state.old).0) }
    ensures state { OnOk result (state.new ≡ (subject offset a state.old).1) }
    ensures keeps { OnOk result (KeepsDeclarations state.old state.new) }
{
    match a.operand {
        Some(a) => {
            let e = integer_of(state.alloc(), a)?;
            Ok(or_broken(state, offset, e))
        }
        None => Ok(None),
    }
}

// The value that there is, or else the operands are bad.
fn or_broken(state: &mut State, offset: u32, e: Option<TExpr>) -> Option<TExpr>
    ensures value { result ≡ (or_broken BadOperands offset e state.old).0 }
    ensures state { state.new ≡ (or_broken BadOperands offset e state.old).1 }
    ensures keeps { KeepsDeclarations state.old state.new }
{
    match e {
        Some(e) => Some(e),
        None => {
            state.breaks(RefusalKind::BadOperands, offset);
            None
        }
    }
}

// The promoted value of an integer.
fn integer_of(alloc: Global, a: Box<Operand>) -> Result<Option<TExpr>, NoMemory>
    ensures { IfOk result (λ r. r ≡ integer_of a.value) }
{
    match c_operator::value(alloc, Box::into_inner(a))? {
        Some(e) => c_operator::plus(alloc, Box::new(alloc, e)?),
        None => Ok(None),
    }
}
