//! Expressions and places (ISO/IEC 9899:2011, 6.5).

#![tactic(auto, using(crate::proofs::Pushed::pushed_none))]

ghost use Rattle.std.specs.Prelude.{◌≡◌, [], ◌∷◌, ◌++◌, OnOk, slice_get};
ghost use Rattle.c_typed.specs.Typed.{exprs_of};
ghost use Rattle.c_interp_answer.specs.TaskViews.{tasks_of, slots_of};
ghost use Rattle.c_interp_def.specs.ExprTasks as task;
ghost use Rattle.c_interp_def.specs.ExprTasks.{count_of, value_slot, holds_value, expr_tasks, place_tasks_of, read_tasks, assign_tasks, compound_tasks, step_tasks, unary_tasks, dropped_tasks, passed_tasks};
ghost use Rattle.c_interp_def.specs.Laws.{of_exprs};

use crate::push::{push, push2, push3, push4};
use base::NoMemory;
use c_interp_def::{ExprTask, Slot, Task};
use c_type::CType;
use c_typed::{CompoundOp, ExprForm, IncDec, PlaceForm, TExpr, TPlace, UnaryOp};

// The slot of a value variable, where the place is one.
fn value_slot(p: &TPlace, slots: &[Slot]) -> Option<u32>
    ensures { result ≡ value_slot (slots_of slots.now) p.now }
{
    match &p.form {
        PlaceForm::Local(k) => holds_value(*k, slots),
        _ => None,
    }
}

fn holds_value(k: u32, slots: &[Slot]) -> Option<u32>
    ensures { result ≡ holds_value k (slice_get (slots_of slots.now) k) }
{
    match slots.get(k as usize) {
        Some(Slot::Holds(_)) => Some(k),
        _ => None,
    }
}

/// The tasks of an expression, where these variables are in scope.
pub fn evaluate<'a>(e: &'a TExpr, slots: &[Slot], tasks: &mut Vec<Task<'a>>) -> Result<(), NoMemory>
    ensures { OnOk result (tasks_of tasks.new.items
        ≡ tasks_of tasks.old.items ++ of_exprs (expr_tasks (slots_of slots.now) e.now)) }
{
    let t: &CType = &e.ty;
    match &e.form {
        ExprForm::Constant(w) => push(tasks, ExprTask::Give(*w)),
        ExprForm::Read(p) => read(t, p, value_slot(p, slots), tasks),
        ExprForm::Address(p) => push(tasks, ExprTask::Locate(p)),
        ExprForm::Unary(op, a) => unary(*op, t, a, tasks),
        ExprForm::Binary(op, a, b) => push3(
            tasks,
            ExprTask::Binary(*op, &a.ty, &b.ty),
            ExprTask::Evaluate(b),
            ExprTask::Evaluate(a),
        ),
        ExprForm::LogicalAnd(a, b) => {
            push2(tasks, ExprTask::AndAlso(&a.ty, b), ExprTask::Evaluate(a))
        }
        ExprForm::LogicalOr(a, b) => {
            push2(tasks, ExprTask::OrElse(&a.ty, b), ExprTask::Evaluate(a))
        }
        ExprForm::Conditional(c, a, b) => {
            push2(tasks, ExprTask::Choose(&c.ty, a, b), ExprTask::Evaluate(c))
        }
        ExprForm::Comma(es, last) => {
            push2(tasks, ExprTask::Evaluate(last), ExprTask::DropEach(es))
        }
        ExprForm::Assign(p, a) => assign(t, p, a, value_slot(p, slots), tasks),
        ExprForm::Compound(op, p, a) => compound(*op, t, p, a, value_slot(p, slots), tasks),
        ExprForm::IncDec(step, p) => inc_dec(*step, t, p, value_slot(p, slots), tasks),
        ExprForm::Call(f, es) => call(*f, es, tasks),
        ExprForm::Get => push(tasks, ExprTask::ReadByte),
    }
}

fn read<'a>(
    t: &'a CType,
    p: &'a TPlace,
    slot: Option<u32>,
    tasks: &mut Vec<Task<'a>>,
) -> Result<(), NoMemory>
    ensures { OnOk result (tasks_of tasks.new.items
        ≡ tasks_of tasks.old.items ++ of_exprs (read_tasks t.now p.now slot)) }
{
    match slot {
        Some(k) => push(tasks, ExprTask::LoadSlot(k, t)),
        None => push2(tasks, ExprTask::LoadFrom(t), ExprTask::Locate(p)),
    }
}

fn unary<'a>(
    op: UnaryOp,
    t: &'a CType,
    a: &'a TExpr,
    tasks: &mut Vec<Task<'a>>,
) -> Result<(), NoMemory>
    ensures { OnOk result (tasks_of tasks.new.items
        ≡ tasks_of tasks.old.items ++ of_exprs (unary_tasks op t.now a.now)) }
{
    match op {
        UnaryOp::Put => push2(tasks, ExprTask::WriteByte, ExprTask::Evaluate(a)),
        UnaryOp::Exit => push2(tasks, ExprTask::EndProgram, ExprTask::Evaluate(a)),
        _ => push2(tasks, ExprTask::Unary(op, t, &a.ty), ExprTask::Evaluate(a)),
    }
}

fn assign<'a>(
    t: &'a CType,
    p: &'a TPlace,
    e: &'a TExpr,
    slot: Option<u32>,
    tasks: &mut Vec<Task<'a>>,
) -> Result<(), NoMemory>
    ensures { OnOk result (tasks_of tasks.new.items
        ≡ tasks_of tasks.old.items ++ of_exprs (assign_tasks t.now p.now e.now slot)) }
{
    match slot {
        Some(k) => push2(tasks, ExprTask::StoreSlot(k, t), ExprTask::Evaluate(e)),
        None => push3(
            tasks,
            ExprTask::StoreAt(t),
            ExprTask::Evaluate(e),
            ExprTask::Locate(p),
        ),
    }
}

fn compound<'a>(
    op: CompoundOp,
    t: &'a CType,
    p: &'a TPlace,
    e: &'a TExpr,
    slot: Option<u32>,
    tasks: &mut Vec<Task<'a>>,
) -> Result<(), NoMemory>
    ensures { OnOk result (tasks_of tasks.new.items
        ≡ tasks_of tasks.old.items ++ of_exprs (compound_tasks op t.now p.now e.now slot)) }
{
    match slot {
        Some(k) => push3(
            tasks,
            ExprTask::CompoundSlot(k, op, t, &e.ty),
            ExprTask::Evaluate(e),
            ExprTask::LoadSlot(k, t),
        ),
        None => push4(
            tasks,
            ExprTask::CompoundAt(op, t, &e.ty),
            ExprTask::Evaluate(e),
            ExprTask::LoadAt(t),
            ExprTask::Locate(p),
        ),
    }
}

#[tactic(auto, using(crate::proofs::Pushed::count_is))]
fn call<'a>(f: u32, es: &'a [TExpr], tasks: &mut Vec<Task<'a>>) -> Result<(), NoMemory>
    ensures { OnOk result (tasks_of tasks.new.items ≡ tasks_of tasks.old.items
        ++ of_exprs (task.call f (count_of (exprs_of es.now))
        ∷ task.pass_each (exprs_of es.now) ∷ [])) }
{
    push2(tasks, ExprTask::Call(f, es.len()), ExprTask::PassEach(es))
}

fn inc_dec<'a>(
    step: IncDec,
    t: &'a CType,
    p: &'a TPlace,
    slot: Option<u32>,
    tasks: &mut Vec<Task<'a>>,
) -> Result<(), NoMemory>
    ensures { OnOk result (tasks_of tasks.new.items
        ≡ tasks_of tasks.old.items ++ of_exprs (step_tasks step t.now p.now slot)) }
{
    match slot {
        Some(k) => push2(
            tasks,
            ExprTask::StepSlot(k, step, t),
            ExprTask::LoadSlot(k, t),
        ),
        None => push3(
            tasks,
            ExprTask::StepAt(step, t),
            ExprTask::LoadAt(t),
            ExprTask::Locate(p),
        ),
    }
}

/// The tasks of a place whose address is wanted.
pub fn locate<'a>(p: &'a TPlace, tasks: &mut Vec<Task<'a>>) -> Result<(), NoMemory>
    ensures { OnOk result (tasks_of tasks.new.items
        ≡ tasks_of tasks.old.items ++ of_exprs (place_tasks_of p.now)) }
{
    match &p.form {
        PlaceForm::Local(k) => push(tasks, ExprTask::LocalAt(*k)),
        PlaceForm::Global(k) => push(tasks, ExprTask::GlobalAt(*k)),
        PlaceForm::At(e) => push2(tasks, ExprTask::UseIt, ExprTask::Evaluate(e)),
        PlaceForm::Member(q, offset) => {
            push2(tasks, ExprTask::MemberAt(*offset), ExprTask::Locate(q))
        }
    }
}

/// The tasks of expressions whose values are dropped.
pub fn drop_each<'a>(es: &'a [TExpr], tasks: &mut Vec<Task<'a>>) -> Result<(), NoMemory>
    ensures { OnOk result (tasks_of tasks.new.items
        ≡ tasks_of tasks.old.items ++ of_exprs (dropped_tasks (exprs_of es.now))) }
{
    match es.split_first() {
        Some((e, rest)) => push3(
            tasks,
            ExprTask::DropEach(rest),
            ExprTask::Discard,
            ExprTask::Evaluate(e),
        ),
        None => Ok(()),
    }
}

/// The tasks of arguments.
pub fn pass_each<'a>(es: &'a [TExpr], tasks: &mut Vec<Task<'a>>) -> Result<(), NoMemory>
    ensures { OnOk result (tasks_of tasks.new.items
        ≡ tasks_of tasks.old.items ++ of_exprs (passed_tasks (exprs_of es.now))) }
{
    match es.split_first() {
        Some((e, rest)) => push3(
            tasks,
            ExprTask::PassEach(rest),
            ExprTask::UseIt,
            ExprTask::Evaluate(e),
        ),
        None => Ok(()),
    }
}
