//! Expressions: what is known at once is given, and what is not becomes tasks.

ghost use Rattle.std.specs.Prelude.{◌≡◌, ◌∷◌, [], ℕ, Some, List};
ghost use Rattle.val_core.specs.Answers.{on_defined};
ghost use Rattle.c_type.specs.Trees.{TypeTree};
ghost use Rattle.c_typed.specs.Typed.{expr, read, unary, binary, logical_and, logical_or, conditional, assign, inc_dec, call, exprs_of, ProgramTree};
ghost use Rattle.c_typed.specs.WellTyped.{type_of};
ghost use Rattle.c_mean.specs.State.{State, gives};
ghost use Rattle.c_mean.specs.Expressions.{binary_done};
ghost use Rattle.c_interp_store.specs.Holding.{Opened, Holds};
ghost use Rattle.c_interp_answer.specs.TaskViews.{task_of, slots_of};
ghost use Rattle.c_interp_def.specs.StmtTasks.{of_expr};
ghost use Rattle.c_interp_def.specs.declared.task.Flow.TheVariants.{Normal};
ghost use Rattle.c_interp_def.specs.ExprTasks as task;
ghost use Rattle.c_interp_def.specs.ExprTasks.{unary_tasks, expr_task_run};
ghost use Rattle.c_interp_def.specs.Laws.{of_exprs};
ghost use Rattle.c_interp_store.specs.Laid.{IsLaid};
ghost use Rattle.c_interp_answer.specs.Answered.{IsValue, IsAddress, place_slot};
ghost use Rattle.c_interp.specs.Known.{Knows};
ghost use Rattle.c_interp.specs.Steps.{IsStep, tasks_do, tested_run, passed_run, passed_then};

use crate::expression::{loaded, step_at};
use crate::known::{known, known_address, known_truth, known_written, slot_of, slot_value};
use crate::machine::{Machine, Program};
use crate::operands::{give, give_value};
use crate::push::{put, put3};
use crate::stop::Stop;
use crate::variable::{set_slot, step_slot};
use c_interp_def::{ExprTask, Task};
use c_interp_store::{Store, binary, used};
use c_type::CType;
use c_typed::{BinaryOp, ExprForm, IncDec, PlaceForm, TExpr, TPlace, UnaryOp};
use val_core::Value;

// How deep expressions are evaluated without a task of their own.
const DEPTH: u32 = 8;

/// An expression.
pub(crate) fn evaluate<'a>(
    machine: &mut Machine<'a>,
    program: &Program<'a>,
    e: &'a TExpr,
) -> Result<(), Stop>
    requires laid { IsLaid program.now.typed.now program.now.layouts.now }
    requires normal { machine.old.flow ≡ Normal }
    ensures { (n : ℕ) → IsStep program.now.typed.now n result machine.old machine.new
        (expr_task_run program.now.typed.now n (task.evaluate e.now)) }
{
    evaluate_to(machine, program, e, DEPTH)
}

/// An expression that is not known at once.
pub(crate) fn evaluate_unknown<'a>(
    machine: &mut Machine<'a>,
    program: &Program<'a>,
    e: &'a TExpr,
) -> Result<(), Stop>
    requires laid { IsLaid program.now.typed.now program.now.layouts.now }
    requires normal { machine.old.flow ≡ Normal }
    ensures { (n : ℕ) → IsStep program.now.typed.now n result machine.old machine.new
        (expr_task_run program.now.typed.now n (task.evaluate e.now)) }
{
    unknown_to(machine, program, e, DEPTH)
}

/// A place, whose address becomes an operand.
pub(crate) fn locate<'a>(
    machine: &mut Machine<'a>,
    program: &Program<'a>,
    q: &'a TPlace,
) -> Result<(), Stop>
    requires laid { IsLaid program.now.typed.now program.now.layouts.now }
    requires normal { machine.old.flow ≡ Normal }
    ensures { (n : ℕ) → IsStep program.now.typed.now n result machine.old machine.new
        (expr_task_run program.now.typed.now n (task.locate q.now)) }
{
    locate_to(machine, program, q, DEPTH)
}

/// Arguments, which become operands.
pub(crate) fn pass_each<'a>(
    machine: &mut Machine<'a>,
    program: &Program<'a>,
    es: &'a [TExpr],
) -> Result<(), Stop>
    requires laid { IsLaid program.now.typed.now program.now.layouts.now }
    requires normal { machine.old.flow ≡ Normal }
    ensures { (n : ℕ) → IsStep program.now.typed.now n result machine.old machine.new
        (expr_task_run program.now.typed.now n (task.pass_each (exprs_of es.now))) }
{
    pass_to(machine, program, es, DEPTH)
}

// The value of an expression that may be known by its form.
fn answered<'a>(machine: &Machine<'a>, program: &Program<'a>, e: &TExpr) -> Option<Value>
    requires laid { IsLaid program.now.typed.now program.now.layouts.now }
    ensures { (n : ℕ) → Knows program.now.typed.now n machine.now
        (λ c s. IsValue c e.now s result) }
{
    match &e.form {
        ExprForm::Call(..)
        | ExprForm::Conditional(..)
        | ExprForm::Binary(..)
        | ExprForm::Assign(..)
        | ExprForm::IncDec(..) => None,
        _ => known(machine, program, e),
    }
}

// An expression, which is looked into so deep.
#[cycle(evaluate)]
fn evaluate_to<'a>(
    machine: &mut Machine<'a>,
    program: &Program<'a>,
    e: &'a TExpr,
    depth: u32,
) -> Result<(), Stop>
    requires laid { IsLaid program.now.typed.now program.now.layouts.now }
    requires normal { machine.old.flow ≡ Normal }
    ensures { (n : ℕ) → IsStep program.now.typed.now n result machine.old machine.new
        (expr_task_run program.now.typed.now n (task.evaluate e.now)) }
{
    match answered(machine, program, e) {
        Some(v) => give_value(machine, v),
        None => unknown_to(machine, program, e, depth),
    }
}

// The same, where it is not known at once.
#[cycle(evaluate)]
fn unknown_to<'a>(
    machine: &mut Machine<'a>,
    program: &Program<'a>,
    e: &'a TExpr,
    depth: u32,
) -> Result<(), Stop>
    requires laid { IsLaid program.now.typed.now program.now.layouts.now }
    requires normal { machine.old.flow ≡ Normal }
    ensures { (n : ℕ) → IsStep program.now.typed.now n result machine.old machine.new
        (expr_task_run program.now.typed.now n (task.evaluate e.now)) }
{
    if depth == 0 {
        return expand(machine, e);
    }
    match &e.form {
        ExprForm::Call(f, es) => call_to(machine, program, *f, es, depth - 1),
        ExprForm::Conditional(d, a, b) => choose_to(machine, program, d, a, b, depth - 1),
        ExprForm::Binary(op, a, b) => operate_to(machine, program, *op, a, b, depth - 1),
        ExprForm::Unary(op, a) => unary_to(machine, program, *op, &e.ty, a, depth - 1),
        ExprForm::LogicalAnd(a, b) => and_to(machine, program, a, b, depth - 1),
        ExprForm::LogicalOr(a, b) => or_to(machine, program, a, b, depth - 1),
        ExprForm::Read(p) => read_to(machine, program, e, &e.ty, p, depth - 1),
        ExprForm::Assign(p, a) => assign_to(machine, program, &e.ty, p, a, depth - 1),
        ExprForm::IncDec(step, p) => increment(machine, program, e, *step, p),
        _ => expand(machine, e),
    }
}

// An expression that becomes tasks.
fn expand<'a>(machine: &mut Machine<'a>, e: &'a TExpr) -> Result<(), Stop>
    requires { machine.old.flow ≡ Normal }
    ensures { (p : ProgramTree) (n : ℕ)
        → IsStep p n result machine.old machine.new (expr_task_run p n (task.evaluate e.now)) }
{
    c_interp_answer::evaluate(e, &machine.slots, &mut machine.tasks)?;
    Ok(())
}

// What `?:` does with its condition.
fn choice<'a>(d: &'a TExpr, a: &'a TExpr, b: &'a TExpr) -> Task<'a>
    ensures { task_of result ≡ of_expr (task.choose (type_of d.now) a.now b.now) }
{
    Task::OfExpr(ExprTask::Choose(&d.ty, a, b))
}

// What a binary operator does with its operands.
fn operation<'a>(op: BinaryOp, a: &'a TExpr, b: &'a TExpr) -> Task<'a>
    ensures { task_of result ≡ of_expr (task.binary op (type_of a.now) (type_of b.now)) }
{
    Task::OfExpr(ExprTask::Binary(op, &a.ty, &b.ty))
}

// What `&&` does with its left operand.
fn and_task<'a>(a: &'a TExpr, b: &'a TExpr) -> Task<'a>
    ensures { task_of result ≡ of_expr (task.and_also (type_of a.now) b.now) }
{
    Task::OfExpr(ExprTask::AndAlso(&a.ty, b))
}

// What `||` does with its left operand.
fn or_task<'a>(a: &'a TExpr, b: &'a TExpr) -> Task<'a>
    ensures { task_of result ≡ of_expr (task.or_else (type_of a.now) b.now) }
{
    Task::OfExpr(ExprTask::OrElse(&a.ty, b))
}

// What is done with an expression of which the truth is wanted.
fn test_task<'a>(b: &'a TExpr) -> Task<'a>
    ensures { task_of result ≡ of_expr (task.test (type_of b.now)) }
{
    Task::OfExpr(ExprTask::Test(&b.ty))
}

// What a unary operator does with its operand.
fn unary_task<'a>(op: UnaryOp, t: &'a CType, a: &'a TExpr) -> Task<'a>
    ensures { of_exprs (unary_tasks op t.now a.now) ≡ task_of result ∷ of_expr (task.evaluate a.now) ∷ [] }
{
    match op {
        UnaryOp::Put => Task::OfExpr(ExprTask::WriteByte),
        UnaryOp::Exit => Task::OfExpr(ExprTask::EndProgram),
        _ => Task::OfExpr(ExprTask::Unary(op, t, &a.ty)),
    }
}

// What a binary operator gives on these values of its operands.
fn operated(store: &Store, op: BinaryOp, a: &TExpr, b: &TExpr, x: Value, y: Value) -> Option<Value>
    ensures { (calls : List Opened) (s : State) → Holds store.now calls s.memory →
        binary_done op (type_of a.now) (type_of b.now) x y s ≡ on_defined result (gives s) }
{
    binary(store, op, &a.ty, &b.ty, x, y)
}

// A unary operator, of which the operand is looked into so deep.
#[cycle(evaluate)]
fn unary_to<'a>(
    machine: &mut Machine<'a>,
    program: &Program<'a>,
    op: UnaryOp,
    t: &'a CType,
    a: &'a TExpr,
    depth: u32,
) -> Result<(), Stop>
    requires laid { IsLaid program.now.typed.now program.now.layouts.now }
    requires normal { machine.old.flow ≡ Normal }
    ensures { (n : ℕ) → IsStep program.now.typed.now n result machine.old machine.new
        (expr_task_run program.now.typed.now n
        (task.evaluate (expr t.now (unary op a.now)))) }
{
    machine.tasks.push(unary_task(op, t, a))?;
    evaluate_to(machine, program, a, depth)
}

// `&&`, of which the operands are looked into so deep.
#[cycle(evaluate)]
#[inline(never)]
fn and_to<'a>(
    machine: &mut Machine<'a>,
    program: &Program<'a>,
    a: &'a TExpr,
    b: &'a TExpr,
    depth: u32,
) -> Result<(), Stop>
    requires laid { IsLaid program.now.typed.now program.now.layouts.now }
    requires normal { machine.old.flow ≡ Normal }
    ensures { (t : TypeTree) (n : ℕ) → IsStep program.now.typed.now n result machine.old machine.new
        (expr_task_run program.now.typed.now n
        (task.evaluate (expr t (logical_and a.now b.now)))) }
{
    match known_truth(machine, program, a) {
        Some(true) => test_to(machine, program, b, depth),
        Some(false) => give(machine, Some(Value::Num(0))),
        None => {
            machine.tasks.push(and_task(a, b))?;
            evaluate_to(machine, program, a, depth)
        }
    }
}

// `||`, of which the operands are looked into so deep.
#[cycle(evaluate)]
#[inline(never)]
fn or_to<'a>(
    machine: &mut Machine<'a>,
    program: &Program<'a>,
    a: &'a TExpr,
    b: &'a TExpr,
    depth: u32,
) -> Result<(), Stop>
    requires laid { IsLaid program.now.typed.now program.now.layouts.now }
    requires normal { machine.old.flow ≡ Normal }
    ensures { (t : TypeTree) (n : ℕ) → IsStep program.now.typed.now n result machine.old machine.new
        (expr_task_run program.now.typed.now n
        (task.evaluate (expr t (logical_or a.now b.now)))) }
{
    match known_truth(machine, program, a) {
        Some(true) => give(machine, Some(Value::Num(1))),
        Some(false) => test_to(machine, program, b, depth),
        None => {
            machine.tasks.push(or_task(a, b))?;
            evaluate_to(machine, program, a, depth)
        }
    }
}

// An expression that is not known at once, which is looked into so deep, and of which the truth
// becomes an operand.
#[cycle(evaluate)]
fn test_to<'a>(
    machine: &mut Machine<'a>,
    program: &Program<'a>,
    b: &'a TExpr,
    depth: u32,
) -> Result<(), Stop>
    requires laid { IsLaid program.now.typed.now program.now.layouts.now }
    requires normal { machine.old.flow ≡ Normal }
    ensures { (n : ℕ) → IsStep program.now.typed.now n result machine.old machine.new
        (tested_run program.now.typed.now n b.now) }
{
    match &b.form {
        ExprForm::Unary(op, a) => test_unary(machine, program, *op, b, a, depth),
        _ => test_later(machine, program, b, depth),
    }
}

// The same of a unary operator: the truth of `!` is its value.
#[cycle(evaluate)]
fn test_unary<'a>(
    machine: &mut Machine<'a>,
    program: &Program<'a>,
    op: UnaryOp,
    b: &'a TExpr,
    a: &TExpr,
    depth: u32,
) -> Result<(), Stop>
    requires laid { IsLaid program.now.typed.now program.now.layouts.now }
    requires normal { machine.old.flow ≡ Normal }
    requires is { b.now ≡ expr (type_of b.now) (unary op a.now) }
    ensures { (n : ℕ) → IsStep program.now.typed.now n result machine.old machine.new
        (tested_run program.now.typed.now n b.now) }
{
    match op {
        UnaryOp::LogicalNot => unknown_to(machine, program, b, depth),
        _ => test_later(machine, program, b, depth),
    }
}

// The same, where the value is tested.
#[cycle(evaluate)]
fn test_later<'a>(
    machine: &mut Machine<'a>,
    program: &Program<'a>,
    b: &'a TExpr,
    depth: u32,
) -> Result<(), Stop>
    requires laid { IsLaid program.now.typed.now program.now.layouts.now }
    requires normal { machine.old.flow ≡ Normal }
    ensures { (n : ℕ) → IsStep program.now.typed.now n result machine.old machine.new
        (tested_run program.now.typed.now n b.now) }
{
    machine.tasks.push(test_task(b))?;
    unknown_to(machine, program, b, depth)
}

// `?:`, of which the condition is looked into so deep, and the operand that is chosen.
#[cycle(evaluate)]
#[inline(never)]
fn choose_to<'a>(
    machine: &mut Machine<'a>,
    program: &Program<'a>,
    d: &'a TExpr,
    a: &'a TExpr,
    b: &'a TExpr,
    depth: u32,
) -> Result<(), Stop>
    requires laid { IsLaid program.now.typed.now program.now.layouts.now }
    requires normal { machine.old.flow ≡ Normal }
    ensures { (t : TypeTree) (n : ℕ) → IsStep program.now.typed.now n result machine.old machine.new
        (expr_task_run program.now.typed.now n
        (task.evaluate (expr t (conditional d.now a.now b.now)))) }
{
    match known_truth(machine, program, d) {
        Some(true) => evaluate_to(machine, program, a, depth),
        Some(false) => evaluate_to(machine, program, b, depth),
        None => {
            machine.tasks.push(choice(d, a, b))?;
            evaluate_to(machine, program, d, depth)
        }
    }
}

// A binary operator, of which the operands are looked into so deep.
#[cycle(evaluate)]
#[inline(never)]
fn operate_to<'a>(
    machine: &mut Machine<'a>,
    program: &Program<'a>,
    op: BinaryOp,
    a: &'a TExpr,
    b: &'a TExpr,
    depth: u32,
) -> Result<(), Stop>
    requires laid { IsLaid program.now.typed.now program.now.layouts.now }
    requires normal { machine.old.flow ≡ Normal }
    ensures { (t : TypeTree) (n : ℕ) → IsStep program.now.typed.now n result machine.old machine.new
        (expr_task_run program.now.typed.now n
        (task.evaluate (expr t (binary op a.now b.now)))) }
{
    match known(machine, program, a) {
        Some(x) => operate_on(machine, program, op, x, a, b, depth),
        None => {
            machine.tasks.push(operation(op, a, b))?;
            machine.tasks.push(Task::OfExpr(ExprTask::Evaluate(b)))?;
            evaluate_to(machine, program, a, depth)
        }
    }
}

// The same, where the left operand is this value.
#[cycle(evaluate)]
fn operate_on<'a>(
    machine: &mut Machine<'a>,
    program: &Program<'a>,
    op: BinaryOp,
    x: Value,
    a: &'a TExpr,
    b: &'a TExpr,
    depth: u32,
) -> Result<(), Stop>
    requires laid { IsLaid program.now.typed.now program.now.layouts.now }
    requires normal { machine.old.flow ≡ Normal }
    requires known { (n : ℕ) → Knows program.now.typed.now n machine.old
        (λ c s. IsValue c a.now s (Some x)) }
    ensures { (t : TypeTree) (n : ℕ) → IsStep program.now.typed.now n result machine.old machine.new
        (expr_task_run program.now.typed.now n
        (task.evaluate (expr t (binary op a.now b.now)))) }
{
    match known(machine, program, b) {
        Some(y) => {
            let v = operated(&machine.store, op, a, b, x, y);
            give(machine, v)
        }
        None => {
            machine.operands.push(x)?;
            machine.tasks.push(operation(op, a, b))?;
            evaluate_to(machine, program, b, depth)
        }
    }
}

// A call of a function, of which the arguments are looked into so deep.
#[cycle(evaluate)]
fn call_to<'a>(
    machine: &mut Machine<'a>,
    program: &Program<'a>,
    f: u32,
    es: &'a [TExpr],
    depth: u32,
) -> Result<(), Stop>
    requires laid { IsLaid program.now.typed.now program.now.layouts.now }
    requires normal { machine.old.flow ≡ Normal }
    ensures { (t : TypeTree) (n : ℕ) → IsStep program.now.typed.now n result machine.old machine.new
        (expr_task_run program.now.typed.now n
        (task.evaluate (expr t (call f (exprs_of es.now))))) }
{
    machine
        .tasks
        .push(Task::OfExpr(ExprTask::Call(f, es.len())))?;
    pass_to(machine, program, es, depth)
}

// Arguments, which are looked into so deep.
#[cycle(evaluate)]
fn pass_to<'a>(
    machine: &mut Machine<'a>,
    program: &Program<'a>,
    es: &'a [TExpr],
    depth: u32,
) -> Result<(), Stop>
    requires laid { IsLaid program.now.typed.now program.now.layouts.now }
    requires normal { machine.old.flow ≡ Normal }
    ensures { (n : ℕ) → IsStep program.now.typed.now n result machine.old machine.new
        (expr_task_run program.now.typed.now n (task.pass_each (exprs_of es.now))) }
{
    match es.split_first() {
        Some((e, rest)) => pass_first(machine, program, e, rest, depth),
        None => Ok(()),
    }
}

// An argument, and those after it.
#[cycle(evaluate)]
fn pass_first<'a>(
    machine: &mut Machine<'a>,
    program: &Program<'a>,
    e: &'a TExpr,
    rest: &'a [TExpr],
    depth: u32,
) -> Result<(), Stop>
    requires laid { IsLaid program.now.typed.now program.now.layouts.now }
    requires normal { machine.old.flow ≡ Normal }
    ensures { (n : ℕ) → IsStep program.now.typed.now n result machine.old machine.new
        (passed_then program.now.typed.now n e.now (exprs_of rest.now)) }
{
    match known(machine, program, e) {
        Some(v) => pass_value(machine, program, v, e, rest, depth),
        None => pass_later(machine, program, e, rest, depth),
    }
}

// The same, where the argument has this value.
#[cycle(evaluate)]
fn pass_value<'a>(
    machine: &mut Machine<'a>,
    program: &Program<'a>,
    v: Value,
    e: &TExpr,
    rest: &'a [TExpr],
    depth: u32,
) -> Result<(), Stop>
    requires laid { IsLaid program.now.typed.now program.now.layouts.now }
    requires normal { machine.old.flow ≡ Normal }
    requires known { (n : ℕ) → Knows program.now.typed.now n machine.old
        (λ c s. IsValue c e.now s (Some v)) }
    ensures { (n : ℕ) → IsStep program.now.typed.now n result machine.old machine.new
        (passed_then program.now.typed.now n e.now (exprs_of rest.now)) }
{
    let Some(w) = used(v) else {
        return Err(Stop::Undefined);
    };
    machine.operands.push(w)?;
    if rest.is_empty() {
        return Ok(());
    }
    if depth == 0 {
        return put(machine, Task::OfExpr(ExprTask::PassEach(rest)));
    }
    pass_to(machine, program, rest, depth - 1)
}

// The same, where the argument is not known at once.
#[cycle(evaluate)]
fn pass_later<'a>(
    machine: &mut Machine<'a>,
    program: &Program<'a>,
    e: &'a TExpr,
    rest: &'a [TExpr],
    depth: u32,
) -> Result<(), Stop>
    requires laid { IsLaid program.now.typed.now program.now.layouts.now }
    requires normal { machine.old.flow ≡ Normal }
    ensures { (n : ℕ) → IsStep program.now.typed.now n result machine.old machine.new
        (passed_then program.now.typed.now n e.now (exprs_of rest.now)) }
{
    if rest.is_empty() {
        return pass_one(machine, program, e, depth);
    }
    machine.tasks.push(Task::OfExpr(ExprTask::PassEach(rest)))?;
    pass_one(machine, program, e, depth)
}

// An argument, which is looked into so deep.
#[cycle(evaluate)]
fn pass_one<'a>(
    machine: &mut Machine<'a>,
    program: &Program<'a>,
    e: &'a TExpr,
    depth: u32,
) -> Result<(), Stop>
    requires laid { IsLaid program.now.typed.now program.now.layouts.now }
    requires normal { machine.old.flow ≡ Normal }
    ensures { (n : ℕ) → IsStep program.now.typed.now n result machine.old machine.new
        (passed_run program.now.typed.now n e.now) }
{
    machine.tasks.push(Task::OfExpr(ExprTask::UseIt))?;
    unknown_to(machine, program, e, depth)
}

// A place, which is looked into so deep.
#[cycle(evaluate)]
fn locate_to<'a>(
    machine: &mut Machine<'a>,
    program: &Program<'a>,
    q: &'a TPlace,
    depth: u32,
) -> Result<(), Stop>
    requires laid { IsLaid program.now.typed.now program.now.layouts.now }
    requires normal { machine.old.flow ≡ Normal }
    ensures { (n : ℕ) → IsStep program.now.typed.now n result machine.old machine.new
        (expr_task_run program.now.typed.now n (task.locate q.now)) }
{
    match known_address(machine, program, q) {
        Some(at) => give_value(machine, at),
        None => find_to(machine, program, q, depth),
    }
}

// The same, where its address is not known at once.
#[cycle(evaluate)]
fn find_to<'a>(
    machine: &mut Machine<'a>,
    program: &Program<'a>,
    q: &'a TPlace,
    depth: u32,
) -> Result<(), Stop>
    requires laid { IsLaid program.now.typed.now program.now.layouts.now }
    requires normal { machine.old.flow ≡ Normal }
    ensures { (n : ℕ) → IsStep program.now.typed.now n result machine.old machine.new
        (expr_task_run program.now.typed.now n (task.locate q.now)) }
{
    if depth == 0 {
        return find(machine, q);
    }
    match &q.form {
        PlaceForm::At(e) => {
            machine.tasks.push(Task::OfExpr(ExprTask::UseIt))?;
            evaluate_to(machine, program, e, depth - 1)
        }
        PlaceForm::Member(r, offset) => {
            machine
                .tasks
                .push(Task::OfExpr(ExprTask::MemberAt(*offset)))?;
            locate_to(machine, program, r, depth - 1)
        }
        _ => find(machine, q),
    }
}

// A place that becomes tasks.
fn find<'a>(machine: &mut Machine<'a>, q: &'a TPlace) -> Result<(), Stop>
    requires { machine.old.flow ≡ Normal }
    ensures { (p : ProgramTree) (n : ℕ)
        → IsStep p n result machine.old machine.new (expr_task_run p n (task.locate q.now)) }
{
    c_interp_answer::locate(q, &mut machine.tasks)?;
    Ok(())
}

// A read of a place, which is looked into so deep.
#[cycle(evaluate)]
fn read_to<'a>(
    machine: &mut Machine<'a>,
    program: &Program<'a>,
    e: &'a TExpr,
    t: &'a CType,
    p: &'a TPlace,
    depth: u32,
) -> Result<(), Stop>
    requires laid { IsLaid program.now.typed.now program.now.layouts.now }
    requires normal { machine.old.flow ≡ Normal }
    requires is { e.now ≡ expr t.now (read p.now) }
    ensures { (n : ℕ) → IsStep program.now.typed.now n result machine.old machine.new
        (expr_task_run program.now.typed.now n (task.evaluate e.now)) }
{
    match slot_of(machine, p) {
        Some(_) => expand(machine, e),
        None => {
            machine.tasks.push(Task::OfExpr(ExprTask::LoadFrom(t)))?;
            find_to(machine, program, p, depth)
        }
    }
}

// An assignment, of which the operands are looked into so deep.
#[cycle(evaluate)]
#[inline(never)]
fn assign_to<'a>(
    machine: &mut Machine<'a>,
    program: &Program<'a>,
    t: &'a CType,
    p: &'a TPlace,
    a: &'a TExpr,
    depth: u32,
) -> Result<(), Stop>
    requires laid { IsLaid program.now.typed.now program.now.layouts.now }
    requires normal { machine.old.flow ≡ Normal }
    ensures { (n : ℕ) → IsStep program.now.typed.now n result machine.old machine.new
        (expr_task_run program.now.typed.now n
        (task.evaluate (expr t.now (assign p.now a.now)))) }
{
    match slot_of(machine, p) {
        Some(k) => {
            machine.tasks.push(Task::OfExpr(ExprTask::StoreSlot(k, t)))?;
            evaluate_to(machine, program, a, depth)
        }
        None => store_to(machine, program, t, p, a, depth),
    }
}

// The same, where the place is no value variable.
#[cycle(evaluate)]
fn store_to<'a>(
    machine: &mut Machine<'a>,
    program: &Program<'a>,
    t: &'a CType,
    p: &'a TPlace,
    a: &'a TExpr,
    depth: u32,
) -> Result<(), Stop>
    requires laid { IsLaid program.now.typed.now program.now.layouts.now }
    requires normal { machine.old.flow ≡ Normal }
    ensures { (n : ℕ) → IsStep program.now.typed.now n result machine.old machine.new
        (tasks_do program.now.typed.now n (of_expr (task.store_at t.now)
        ∷ of_expr (task.evaluate a.now) ∷ of_expr (task.locate p.now) ∷ [])) }
{
    machine.tasks.push(Task::OfExpr(ExprTask::StoreAt(t)))?;
    match known_address(machine, program, p) {
        Some(at) => {
            machine.operands.push(at)?;
            evaluate_to(machine, program, a, depth)
        }
        None => {
            machine.tasks.push(Task::OfExpr(ExprTask::Evaluate(a)))?;
            find_to(machine, program, p, depth)
        }
    }
}

// `++` or `--`.
#[inline(never)]
fn increment<'a>(
    machine: &mut Machine<'a>,
    program: &Program<'a>,
    e: &'a TExpr,
    step: IncDec,
    p: &'a TPlace,
) -> Result<(), Stop>
    requires laid { IsLaid program.now.typed.now program.now.layouts.now }
    requires normal { machine.old.flow ≡ Normal }
    requires is { e.now ≡ expr (type_of e.now) (inc_dec step p.now) }
    ensures { (n : ℕ) → IsStep program.now.typed.now n result machine.old machine.new
        (expr_task_run program.now.typed.now n (task.evaluate e.now)) }
{
    match known_written(machine, program, e) {
        Some(w) => {
            set_slot(&mut machine.slots, w.slot, Value::Num(w.word));
            give_value(machine, Value::Num(w.given))
        }
        None => increment_more(machine, program, &e.ty, step, p),
    }
}

// The same, where it does not assign a known number to a variable.
fn increment_more<'a>(
    machine: &mut Machine<'a>,
    program: &Program<'a>,
    t: &'a CType,
    step: IncDec,
    p: &'a TPlace,
) -> Result<(), Stop>
    requires laid { IsLaid program.now.typed.now program.now.layouts.now }
    requires normal { machine.old.flow ≡ Normal }
    ensures { (n : ℕ) → IsStep program.now.typed.now n result machine.old machine.new
        (expr_task_run program.now.typed.now n (task.evaluate (expr t.now (inc_dec step p.now)))) }
{
    match slot_of(machine, p) {
        Some(k) => increment_slot(machine, t, step, p, k),
        None => increment_at(machine, program, t, step, p),
    }
}

// The same of the variable at a slot.
fn increment_slot<'a>(
    machine: &mut Machine<'a>,
    t: &'a CType,
    step: IncDec,
    p: &'a TPlace,
    k: u32,
) -> Result<(), Stop>
    requires normal { machine.old.flow ≡ Normal }
    requires at { Some k ≡ place_slot (slots_of machine.old.slots.items) p.now }
    ensures { (q : ProgramTree) (n : ℕ) → IsStep q n result machine.old machine.new
        (expr_task_run q n (task.evaluate (expr t.now (inc_dec step p.now)))) }
{
    let Some(old) = slot_value(machine, k) else {
        return Err(Stop::Undefined);
    };
    machine.operands.push(old)?;
    step_slot(machine, k, step, t)
}

// The same of an object.
fn increment_at<'a>(
    machine: &mut Machine<'a>,
    program: &Program<'a>,
    t: &'a CType,
    step: IncDec,
    p: &'a TPlace,
) -> Result<(), Stop>
    requires laid { IsLaid program.now.typed.now program.now.layouts.now }
    requires normal { machine.old.flow ≡ Normal }
    ensures { (n : ℕ) → IsStep program.now.typed.now n result machine.old machine.new
        (tasks_do program.now.typed.now n (of_expr (task.step_at step t.now)
        ∷ of_expr (task.load_at t.now) ∷ of_expr (task.locate p.now) ∷ [])) }
{
    match known_address(machine, program, p) {
        Some(at) => increment_known(machine, program, at, t, step, p),
        None => put3(
            machine,
            Task::OfExpr(ExprTask::StepAt(step, t)),
            Task::OfExpr(ExprTask::LoadAt(t)),
            Task::OfExpr(ExprTask::Locate(p)),
        ),
    }
}

// The same, at this address.
fn increment_known<'a>(
    machine: &mut Machine<'a>,
    program: &Program<'a>,
    at: Value,
    t: &'a CType,
    step: IncDec,
    p: &'a TPlace,
) -> Result<(), Stop>
    requires laid { IsLaid program.now.typed.now program.now.layouts.now }
    requires normal { machine.old.flow ≡ Normal }
    requires known { (n : ℕ) → Knows program.now.typed.now n machine.old
        (λ c s. IsAddress c p.now s (Some at)) }
    ensures { (n : ℕ) → IsStep program.now.typed.now n result machine.old machine.new
        (tasks_do program.now.typed.now n (of_expr (task.step_at step t.now)
        ∷ of_expr (task.load_at t.now) ∷ of_expr (task.locate p.now) ∷ [])) }
{
    let Some(old) = loaded(&machine.store, t, at) else {
        return Err(Stop::Undefined);
    };
    machine.operands.push(at)?;
    machine.operands.push(old)?;
    step_at(machine, step, t)
}
