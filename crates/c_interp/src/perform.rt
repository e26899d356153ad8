//! Expressions whose values are dropped.

ghost use Rattle.std.specs.Prelude.{◌≡◌, ℕ, Some};
ghost use Rattle.c_typed.specs.Typed.{expr, assign, inc_dec, some_expr, ProgramTree};
ghost use Rattle.c_interp_def.specs.declared.task.Flow.TheVariants.{Normal};
ghost use Rattle.c_interp_def.specs.StmtTasks.{optional_tasks};
ghost use Rattle.c_interp_answer.specs.TaskViews.{slots_of};
ghost use Rattle.c_interp_store.specs.Laid.{IsLaid};
ghost use Rattle.c_interp_answer.specs.Answered.{place_slot};
ghost use Rattle.c_interp.specs.Steps.{IsStep, IsPerformed, tasks_do};

use crate::evaluate::evaluate_unknown;
use crate::expression::incremented;
use crate::known::{known, known_address, known_written, slot_of, slot_value};
use crate::machine::{Machine, Program};
use crate::stop::Stop;
use crate::variable::set_slot;
use c_interp_def::{ExprTask, Task};
use c_interp_store::{access_width, used};
use c_type::CType;
use c_typed::{ExprForm, IncDec, TExpr, TPlace};
use val_core::Value;

/// An expression whose value is dropped.
pub(crate) fn perform<'a>(
    machine: &mut Machine<'a>,
    program: &Program<'a>,
    e: &'a TExpr,
) -> Result<(), Stop>
    requires laid { IsLaid program.now.typed.now program.now.layouts.now }
    requires normal { machine.old.flow ≡ Normal }
    ensures { (n : ℕ) → IsStep program.now.typed.now n result machine.old machine.new
        (tasks_do program.now.typed.now n (optional_tasks (some_expr e.now))) }
{
    match performed(machine, program, e) {
        Ok(true) => Ok(()),
        Ok(false) => evaluate_and_drop(machine, program, e),
        Err(stop) => Err(stop),
    }
}

/// Whether an expression whose value is dropped assigns what is known at once; that is then done,
/// and else nothing. A call is not.
#[inline(always)]
pub(crate) fn performed<'a>(
    machine: &mut Machine<'a>,
    program: &Program<'a>,
    e: &'a TExpr,
) -> Result<bool, Stop>
    requires laid { IsLaid program.now.typed.now program.now.layouts.now }
    requires normal { machine.old.flow ≡ Normal }
    ensures { (n : ℕ) → IsPerformed program.now.typed.now n result machine.old machine.new
        (tasks_do program.now.typed.now n (optional_tasks (some_expr e.now))) }
{
    match &e.form {
        ExprForm::Call(..) => Ok(false),
        _ => written(machine, program, e),
    }
}

// The same of an expression that is no call.
#[inline(always)]
fn written<'a>(machine: &mut Machine<'a>, program: &Program<'a>, e: &'a TExpr) -> Result<bool, Stop>
    requires laid { IsLaid program.now.typed.now program.now.layouts.now }
    requires normal { machine.old.flow ≡ Normal }
    ensures { (n : ℕ) → IsPerformed program.now.typed.now n result machine.old machine.new
        (tasks_do program.now.typed.now n (optional_tasks (some_expr e.now))) }
{
    match known_written(machine, program, e) {
        Some(w) => {
            set_slot(&mut machine.slots, w.slot, Value::Num(w.word));
            Ok(true)
        }
        None => performed_more(machine, program, e),
    }
}

// The same, where it does not assign a known number to a variable.
#[inline(never)]
fn performed_more<'a>(
    machine: &mut Machine<'a>,
    program: &Program<'a>,
    e: &'a TExpr,
) -> Result<bool, Stop>
    requires laid { IsLaid program.now.typed.now program.now.layouts.now }
    requires normal { machine.old.flow ≡ Normal }
    ensures { (n : ℕ) → IsPerformed program.now.typed.now n result machine.old machine.new
        (tasks_do program.now.typed.now n (optional_tasks (some_expr e.now))) }
{
    match &e.form {
        ExprForm::Assign(p, a) => assigned(machine, program, &e.ty, p, a),
        ExprForm::IncDec(step, p) => stepped(machine, &e.ty, *step, p),
        _ => Ok(false),
    }
}

// An assignment.
fn assigned<'a>(
    machine: &mut Machine<'a>,
    program: &Program<'a>,
    t: &CType,
    p: &'a TPlace,
    a: &'a TExpr,
) -> Result<bool, Stop>
    requires laid { IsLaid program.now.typed.now program.now.layouts.now }
    requires normal { machine.old.flow ≡ Normal }
    ensures { (n : ℕ) → IsPerformed program.now.typed.now n result machine.old machine.new
        (tasks_do program.now.typed.now n (optional_tasks (some_expr (expr t.now (assign p.now a.now))))) }
{
    match slot_of(machine, p) {
        Some(k) => assigned_slot(machine, program, t, p, a, k),
        None => stored(machine, program, t, p, a),
    }
}

// The same to the variable at a slot.
fn assigned_slot<'a>(
    machine: &mut Machine<'a>,
    program: &Program<'a>,
    t: &CType,
    p: &'a TPlace,
    a: &'a TExpr,
    k: u32,
) -> Result<bool, Stop>
    requires laid { IsLaid program.now.typed.now program.now.layouts.now }
    requires normal { machine.old.flow ≡ Normal }
    requires at { Some k ≡ place_slot (slots_of machine.old.slots.items) p.now }
    ensures { (n : ℕ) → IsPerformed program.now.typed.now n result machine.old machine.new
        (tasks_do program.now.typed.now n (optional_tasks (some_expr (expr t.now (assign p.now a.now))))) }
{
    let Some(v) = known(machine, program, a) else {
        return Ok(false);
    };
    let Some(w) = used(v) else {
        return Err(Stop::Undefined);
    };
    set_slot(&mut machine.slots, k, w);
    Ok(true)
}

// The same to an object.
fn stored<'a>(
    machine: &mut Machine<'a>,
    program: &Program<'a>,
    t: &CType,
    p: &'a TPlace,
    a: &'a TExpr,
) -> Result<bool, Stop>
    requires laid { IsLaid program.now.typed.now program.now.layouts.now }
    requires normal { machine.old.flow ≡ Normal }
    ensures { (n : ℕ) → IsPerformed program.now.typed.now n result machine.old machine.new
        (tasks_do program.now.typed.now n (optional_tasks (some_expr (expr t.now (assign p.now a.now))))) }
{
    let Some(at) = known_address(machine, program, p) else {
        return Ok(false);
    };
    let Some(v) = known(machine, program, a) else {
        return Ok(false);
    };
    let Some(w) = used(v) else {
        return Err(Stop::Undefined);
    };
    if machine.store.store(access_width(t), at, w) {
        Ok(true)
    } else {
        Err(Stop::Undefined)
    }
}

// `++` or `--`.
fn stepped<'a>(machine: &mut Machine<'a>, t: &CType, step: IncDec, p: &TPlace) -> Result<bool, Stop>
    requires { machine.old.flow ≡ Normal }
    ensures { (q : ProgramTree) (n : ℕ) → IsPerformed q n result machine.old machine.new
        (tasks_do q n (optional_tasks (some_expr (expr t.now (inc_dec step p.now))))) }
{
    let Some(k) = slot_of(machine, p) else {
        return Ok(false);
    };
    let Some(old) = slot_value(machine, k) else {
        return Err(Stop::Undefined);
    };
    let Some(w) = incremented(&machine.store, step, t, old) else {
        return Err(Stop::Undefined);
    };
    set_slot(&mut machine.slots, k, w);
    Ok(true)
}

/// An expression whose value is dropped and that is not performed at once.
pub(crate) fn evaluate_and_drop<'a>(
    machine: &mut Machine<'a>,
    program: &Program<'a>,
    e: &'a TExpr,
) -> Result<(), Stop>
    requires laid { IsLaid program.now.typed.now program.now.layouts.now }
    requires normal { machine.old.flow ≡ Normal }
    ensures { (n : ℕ) → IsStep program.now.typed.now n result machine.old machine.new
        (tasks_do program.now.typed.now n (optional_tasks (some_expr e.now))) }
{
    machine.tasks.push(Task::OfExpr(ExprTask::Discard))?;
    evaluate_unknown(machine, program, e)
}
