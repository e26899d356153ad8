//! The checker as one call.

ghost use Rattle.std.specs.Prelude.{◌≡◌, None, Ok, IfOk, IfErr};
ghost use Rattle.c_ast.specs.Externals.{unit_tree};
ghost use Rattle.c_check_def.specs.Check.{check, judged, or_refused, externals, initial_state, defined_in};
ghost use Rattle.c_check_def.specs.Limits.{above_limits};
ghost use Rattle.c_check.specs.Faults.{Refuses, quantity_number};

use crate::defined::defined_in;
use crate::externals::externals;
use crate::fault::{CheckFault, fault_of};
use crate::main_function::has_main;
use crate::quantities::above_limits;
use base::NoMemory;
use c_ast::Unit;
use c_check_def::Quantity;
use c_check_state::State;
use c_typed::Typed;
use std::alloc::Global;

/// The typed program that a source of this length, in bytes, stands for, or why it is refused
/// (ISO/IEC 9899:2011, 6.9). First the broken rule at the least offset of the first declaration
/// that breaks one; then `NoMain`; then `Limit`, the quantities in the order of their numbers.
pub fn check(alloc: Global, unit: &Unit, length: u32) -> Result<Typed, CheckFault>
    ensures ok { IfOk result (λ p. check (unit_tree unit.now) length ≡ Ok p) }
    ensures err { IfErr result (λ e. Refuses e (check (unit_tree unit.now) length)) }
{
    let state = elaborated(alloc, unit)?;
    judged(state, length)
}

// What is known at the end of a file.
fn elaborated(alloc: Global, unit: &Unit) -> Result<State, NoMemory>
    ensures { IfOk result (λ r. r ≡
        (externals (unit_tree unit.now) (initial_state (defined_in (unit_tree unit.now)))).1) }
{
    let names = defined_in(alloc, unit.externals.as_slice())?;
    let mut state = State::new(alloc, names)?;
    externals(&mut state, unit.externals.as_slice())?;
    Ok(state)
}

fn judged(state: State, length: u32) -> Result<Typed, CheckFault>
    ensures ok { IfOk result (λ p. judged length state state.broken ≡ Ok p) }
    ensures err { IfErr result (λ e. Refuses e (judged length state state.broken)) }
{
    match state.broken() {
        Some(broken) => Err(fault_of(broken)),
        None => main_judged(state, length),
    }
}

// A program that breaks no rule.
fn main_judged(state: State, length: u32) -> Result<Typed, CheckFault>
    ensures ok { IfOk result (λ p. judged length state None ≡ Ok p) }
    ensures err { IfErr result (λ e. Refuses e (judged length state None)) }
{
    if has_main(&state)? {
        limits_judged(state.into_program()?)
    } else {
        Err(CheckFault::NoMain { at: length })
    }
}

fn limits_judged(typed: Typed) -> Result<Typed, CheckFault>
    ensures ok { IfOk result (λ p. or_refused typed (above_limits typed) ≡ Ok p) }
    ensures err { IfErr result (λ e. Refuses e (or_refused typed (above_limits typed))) }
{
    match above_limits(&typed)? {
        Some(passed) => Err(CheckFault::Limit {
            at: passed.at,
            which: quantity_number(passed.quantity),
            count: passed.count,
        }),
        None => Ok(typed),
    }
}

fn quantity_number(quantity: Quantity) -> u8
    ensures { result ≡ quantity_number quantity }
{
    match quantity {
        Quantity::Functions => 1,
        Quantity::Parameters => 2,
        Quantity::ObjectBytes => 3,
        Quantity::GlobalBytes => 4,
    }
}
