//! What is known of an expression at once, where the machine stands.

ghost use Rattle.std.specs.Prelude.{◌≡◌, ℕ, slice_get};
ghost use Rattle.c_interp_answer.specs.TaskViews.{slots_of};
ghost use Rattle.c_interp_store.specs.Laid.{IsLaid};
ghost use Rattle.c_interp_answer.specs.Answered.{IsValue, IsTruth, IsAddress, IsWritten, place_slot};
ghost use Rattle.c_interp.specs.Known.{Shows, Knows};
ghost use Rattle.c_interp.specs.Steps.{slot_read};

use crate::machine::{Machine, Program};
use crate::variable::slot_read;
use c_interp_answer::{Assignment, Scope};
use c_typed::{TExpr, TPlace};
use val_core::Value;

// How deep an expression is looked into.
const DEPTH: u32 = 8;

// What an expression is read from, where the machine stands.
fn scope_of<'b, 'a>(machine: &'b Machine<'a>, program: &Program<'b>) -> Scope<'b>
    requires laid { IsLaid program.now.typed.now program.now.layouts.now }
    ensures { (n : ℕ) → Shows program.now.typed.now n machine.now result }
{
    Scope {
        store: &machine.store,
        slots: machine.slots.as_slice(),
        layouts: program.layouts,
        function: machine.frame.function,
        first: machine.frame.objects.first,
    }
}

/// The value that an expression gives.
pub(crate) fn known<'a>(machine: &Machine<'a>, program: &Program<'a>, e: &TExpr) -> Option<Value>
    requires laid { IsLaid program.now.typed.now program.now.layouts.now }
    ensures { (n : ℕ) → Knows program.now.typed.now n machine.now
        (λ c s. IsValue c e.now s result) }
{
    c_interp_answer::answer(&scope_of(machine, program), e, DEPTH)
}

/// Whether an expression is true.
#[inline(always)]
pub(crate) fn known_truth<'a>(
    machine: &Machine<'a>,
    program: &Program<'a>,
    e: &TExpr,
) -> Option<bool>
    requires laid { IsLaid program.now.typed.now program.now.layouts.now }
    ensures { (n : ℕ) → Knows program.now.typed.now n machine.now
        (λ c s. IsTruth c e.now s result) }
{
    c_interp_answer::asked(&scope_of(machine, program), e, DEPTH)
}

/// The address of a place.
pub(crate) fn known_address<'a>(
    machine: &Machine<'a>,
    program: &Program<'a>,
    p: &TPlace,
) -> Option<Value>
    requires laid { IsLaid program.now.typed.now program.now.layouts.now }
    ensures { (n : ℕ) → Knows program.now.typed.now n machine.now
        (λ c s. IsAddress c p.now s result) }
{
    c_interp_answer::address(&scope_of(machine, program), p, DEPTH)
}

/// The number that an expression assigns to a variable.
pub(crate) fn known_written<'a>(
    machine: &Machine<'a>,
    program: &Program<'a>,
    e: &TExpr,
) -> Option<Assignment>
    requires laid { IsLaid program.now.typed.now program.now.layouts.now }
    ensures { (n : ℕ) → Knows program.now.typed.now n machine.now
        (λ c s. IsWritten c e.now s result) }
{
    c_interp_answer::written(&scope_of(machine, program), e, DEPTH)
}

/// The slot of a value variable, where the place is one.
pub(crate) fn slot_of<'a>(machine: &Machine<'a>, p: &TPlace) -> Option<u32>
    ensures { result ≡ place_slot (slots_of machine.now.slots.items) p.now }
{
    c_interp_answer::value_slot(machine.slots.as_slice(), p)
}

/// The value of the variable at a slot.
pub(crate) fn slot_value<'a>(machine: &Machine<'a>, slot: u32) -> Option<Value>
    ensures { result ≡ slot_read (slice_get (slots_of machine.now.slots.items) slot) }
{
    slot_read(machine.slots.as_slice(), slot)
}
