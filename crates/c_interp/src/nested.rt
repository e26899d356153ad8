//! Statements that are begun at once (ISO/IEC 9899:2011, 6.8), with those that stand in them.

ghost use Rattle.std.specs.Prelude.{◌≡◌, ◌∷◌, [], ℕ, Some};
ghost use Rattle.val_core.specs.Answers.{then_on};
ghost use Rattle.c_typed.specs.Typed.{ProgramTree, OptionalExpr, some_expr, StmtTree, declare_then, if_else};
ghost use Rattle.c_typed.specs.StmtViews.{items_of, initial_of, declaration_of};
ghost use Rattle.c_interp_def.specs.declared.task.Flow.TheVariants.{Normal};
ghost use Rattle.c_interp_def.specs.StmtTasks as stmt;
ghost use Rattle.c_interp_def.specs.StmtTasks.{handler, of_expr, of_stmt, optional_tasks, turn_tasks, stmt_task_run, task_run};
ghost use Rattle.c_interp_def.specs.ExprTasks as task;
ghost use Rattle.c_interp_def.specs.ExprTasks.{expr_task_run};
ghost use Rattle.c_interp_store.specs.Laid.{IsLaid};
ghost use Rattle.c_interp_answer.specs.Answered.{IsValue};
ghost use Rattle.c_interp.specs.Known.{Knows, while_loop};
ghost use Rattle.c_interp.specs.Steps.{IsStep, tasks_do, turns_do, loop_then, declared_do, is_loop};

use crate::begin::is_value;
use crate::evaluate::evaluate_unknown;
use crate::known::{known, known_truth};
use crate::machine::{Machine, Program};
use crate::perform::{evaluate_and_drop, perform, performed};
use crate::statement::{expand, expand_items, jump, return_value};
use crate::stop::Stop;
use c_interp_def::{Flow, Handler, Slot, Stage, StmtTask, Task};
use c_interp_store::used;
use c_typed::{Declaration, Initial, Item, StmtForm, TExpr, TStmt};
use val_core::Value;

// How deep statements are begun without a task of their own.
const DEPTH: u32 = 8;

/// A statement.
pub(crate) fn run_stmt<'a>(
    machine: &mut Machine<'a>,
    program: &Program<'a>,
    a: &'a TStmt,
) -> Result<(), Stop>
    requires laid { IsLaid program.now.typed.now program.now.layouts.now }
    requires normal { machine.old.flow ≡ Normal }
    ensures { IsStep program.now.typed.now program.now.bound result machine.old machine.new
        (stmt_task_run program.now.typed.now program.now.bound (stmt.run_stmt a.now)) }
{
    run_to(machine, program, a, DEPTH)
}

/// The items of a block.
pub(crate) fn run_items<'a>(
    machine: &mut Machine<'a>,
    program: &Program<'a>,
    items: &'a [Item],
) -> Result<(), Stop>
    requires laid { IsLaid program.now.typed.now program.now.layouts.now }
    requires normal { machine.old.flow ≡ Normal }
    ensures { IsStep program.now.typed.now program.now.bound result machine.old machine.new
        (stmt_task_run program.now.typed.now program.now.bound (stmt.run_items (items_of items.now))) }
{
    items_to(machine, program, items, DEPTH)
}

/// A loop, of which so many turns are left.
pub(crate) fn run_turns<'a>(
    machine: &mut Machine<'a>,
    program: &Program<'a>,
    turns: u64,
    a: &'a TStmt,
) -> Result<(), Stop>
    requires laid { IsLaid program.now.typed.now program.now.layouts.now }
    requires normal { machine.old.flow ≡ Normal }
    ensures { IsStep program.now.typed.now program.now.bound result machine.old machine.new
        (stmt_task_run program.now.typed.now program.now.bound (stmt.run_turns turns a.now)) }
{
    turns_to(machine, program, turns, a, DEPTH)
}

/// A turn of this loop, where one is left.
pub(crate) fn turn<'a>(
    machine: &mut Machine<'a>,
    program: &Program<'a>,
    turns: u64,
    a: &'a TStmt,
    body: &'a TStmt,
) -> Result<(), Stop>
    requires laid { IsLaid program.now.typed.now program.now.layouts.now }
    requires normal { machine.old.flow ≡ Normal }
    ensures { IsStep program.now.typed.now program.now.bound result machine.old machine.new
        (turns_do program.now.typed.now program.now.bound
        (turn_tasks turns a.now body.now)) }
{
    turn_to(machine, program, turns, a, body, DEPTH)
}

// A statement, which is looked into so deep.
#[cycle(run)]
fn run_to<'a>(
    machine: &mut Machine<'a>,
    program: &Program<'a>,
    a: &'a TStmt,
    depth: u32,
) -> Result<(), Stop>
    requires laid { IsLaid program.now.typed.now program.now.layouts.now }
    requires normal { machine.old.flow ≡ Normal }
    ensures { IsStep program.now.typed.now program.now.bound result machine.old machine.new
        (stmt_task_run program.now.typed.now program.now.bound (stmt.run_stmt a.now)) }
{
    if depth == 0 {
        return expand(machine, program.bound, a);
    }
    match &a.form {
        StmtForm::Value(e) => perform(machine, program, e),
        StmtForm::Block(items) => items_to(machine, program, items, depth - 1),
        StmtForm::IfElse(e, then, otherwise) => {
            choose_to(machine, program, a, e, then, otherwise, depth - 1)
        }
        StmtForm::Loop { .. } => loop_to(machine, program, a, depth - 1),
        StmtForm::DoWhile { .. } => loop_to(machine, program, a, depth - 1),
        StmtForm::ReturnValue(e) => return_value(machine, program, e),
        StmtForm::Break => jump(machine, Flow::Broke),
        StmtForm::Continue => jump(machine, Flow::Continued),
        _ => expand(machine, program.bound, a),
    }
}

// An `if` statement.
#[cycle(run)]
fn choose_to<'a>(
    machine: &mut Machine<'a>,
    program: &Program<'a>,
    a: &'a TStmt,
    e: &'a TExpr,
    body: &'a TStmt,
    otherwise: &'a TStmt,
    depth: u32,
) -> Result<(), Stop>
    requires laid { IsLaid program.now.typed.now program.now.layouts.now }
    requires normal { machine.old.flow ≡ Normal }
    requires is { a.now ≡ if_else e.now body.now otherwise.now }
    ensures { IsStep program.now.typed.now program.now.bound result machine.old machine.new
        (stmt_task_run program.now.typed.now program.now.bound (stmt.run_stmt a.now)) }
{
    match known_truth(machine, program, e) {
        Some(true) => run_to(machine, program, body, depth),
        Some(false) => run_to(machine, program, otherwise, depth),
        None => branch_later(machine, program, a, e),
    }
}

// The same, where the condition is evaluated first.
fn branch_later<'a>(
    machine: &mut Machine<'a>,
    program: &Program<'a>,
    a: &'a TStmt,
    e: &'a TExpr,
) -> Result<(), Stop>
    requires laid { IsLaid program.now.typed.now program.now.layouts.now }
    requires normal { machine.old.flow ≡ Normal }
    ensures { (n : ℕ) → IsStep program.now.typed.now n result machine.old machine.new
        (λ x. then_on (expr_task_run program.now.typed.now n (task.evaluate e.now) x)
        (task_run program.now.typed.now n (of_stmt (stmt.branch a.now)))) }
{
    machine
        .tasks
        .push(Task::OfStmt(StmtTask::OnStmt(Stage::Branch, a)))?;
    evaluate_unknown(machine, program, e)
}

// The items of a block.
#[cycle(run)]
fn items_to<'a>(
    machine: &mut Machine<'a>,
    program: &Program<'a>,
    items: &'a [Item],
    depth: u32,
) -> Result<(), Stop>
    requires laid { IsLaid program.now.typed.now program.now.layouts.now }
    requires normal { machine.old.flow ≡ Normal }
    ensures { IsStep program.now.typed.now program.now.bound result machine.old machine.new
        (stmt_task_run program.now.typed.now program.now.bound (stmt.run_items (items_of items.now))) }
{
    if depth == 0 {
        return expand_items(machine, program, items);
    }
    match items.split_first() {
        Some((first, rest)) => item_to(machine, program, items, first, rest, depth - 1),
        None => Ok(()),
    }
}

// The first of these items, and those after it.
#[cycle(run)]
fn item_to<'a>(
    machine: &mut Machine<'a>,
    program: &Program<'a>,
    items: &'a [Item],
    first: &'a Item,
    rest: &'a [Item],
    depth: u32,
) -> Result<(), Stop>
    requires laid { IsLaid program.now.typed.now program.now.layouts.now }
    requires normal { machine.old.flow ≡ Normal }
    requires is { items.now ≡ first.now ∷ rest.now }
    ensures { IsStep program.now.typed.now program.now.bound result machine.old machine.new
        (stmt_task_run program.now.typed.now program.now.bound (stmt.run_items (items_of items.now))) }
{
    match first {
        Item::Statement(a) => statement_to(machine, program, a, rest, depth),
        Item::Variable(d) => variable_to(machine, program, items, d, rest, depth),
    }
}

// A declaration, and the items after it.
#[cycle(run)]
#[inline(never)]
fn variable_to<'a>(
    machine: &mut Machine<'a>,
    program: &Program<'a>,
    items: &'a [Item],
    d: &'a Declaration,
    rest: &'a [Item],
    depth: u32,
) -> Result<(), Stop>
    requires laid { IsLaid program.now.typed.now program.now.layouts.now }
    requires normal { machine.old.flow ≡ Normal }
    requires is { items_of items.now
        ≡ declare_then (declaration_of d.now) (items_of rest.now) }
    ensures { IsStep program.now.typed.now program.now.bound result machine.old machine.new
        (stmt_task_run program.now.typed.now program.now.bound (stmt.run_items (items_of items.now))) }
{
    if is_value(program, machine.frame.function, d.variable) {
        return declare_to(machine, program, &d.initial, rest, depth);
    }
    expand_items(machine, program, items)
}

// A statement, and the items after it.
#[cycle(run)]
fn statement_to<'a>(
    machine: &mut Machine<'a>,
    program: &Program<'a>,
    a: &'a TStmt,
    rest: &'a [Item],
    depth: u32,
) -> Result<(), Stop>
    requires laid { IsLaid program.now.typed.now program.now.layouts.now }
    requires normal { machine.old.flow ≡ Normal }
    ensures { IsStep program.now.typed.now program.now.bound result machine.old machine.new
        (tasks_do program.now.typed.now program.now.bound (of_stmt (stmt.run_items (items_of rest.now))
        ∷ of_stmt (stmt.run_stmt a.now) ∷ [])) }
{
    if rest.is_empty() {
        return run_to(machine, program, a, depth);
    }
    first_to(machine, program, a, rest, depth)
}

// The same, as a rule where there are items.
#[cycle(run)]
fn first_to<'a>(
    machine: &mut Machine<'a>,
    program: &Program<'a>,
    a: &'a TStmt,
    rest: &'a [Item],
    depth: u32,
) -> Result<(), Stop>
    requires laid { IsLaid program.now.typed.now program.now.layouts.now }
    requires normal { machine.old.flow ≡ Normal }
    ensures { IsStep program.now.typed.now program.now.bound result machine.old machine.new
        (tasks_do program.now.typed.now program.now.bound (of_stmt (stmt.run_items (items_of rest.now))
        ∷ of_stmt (stmt.run_stmt a.now) ∷ [])) }
{
    match &a.form {
        StmtForm::Null => items_to(machine, program, rest, depth),
        StmtForm::Value(e) => value_to(machine, program, e, rest, depth),
        StmtForm::IfElse(e, then, otherwise) => {
            if_to(machine, program, a, e, then, otherwise, rest, depth)
        }
        StmtForm::Loop {
            condition,
            body,
            ..
        } => match condition {
            Some(e) => while_then(machine, program, a, e, body, rest, depth),
            None => run_then(machine, program, a, rest, depth),
        },
        _ => run_then(machine, program, a, rest, depth),
    }
}

// The same, where the items wait.
#[cycle(run)]
fn run_then<'a>(
    machine: &mut Machine<'a>,
    program: &Program<'a>,
    a: &'a TStmt,
    rest: &'a [Item],
    depth: u32,
) -> Result<(), Stop>
    requires laid { IsLaid program.now.typed.now program.now.layouts.now }
    requires normal { machine.old.flow ≡ Normal }
    ensures { IsStep program.now.typed.now program.now.bound result machine.old machine.new
        (tasks_do program.now.typed.now program.now.bound (of_stmt (stmt.run_items (items_of rest.now))
        ∷ of_stmt (stmt.run_stmt a.now) ∷ [])) }
{
    machine.tasks.push(Task::OfStmt(StmtTask::RunItems(rest)))?;
    run_to(machine, program, a, depth)
}

// An `if` statement, and the items after it.
#[cycle(run)]
fn if_to<'a>(
    machine: &mut Machine<'a>,
    program: &Program<'a>,
    a: &'a TStmt,
    e: &'a TExpr,
    body: &'a TStmt,
    otherwise: &'a TStmt,
    rest: &'a [Item],
    depth: u32,
) -> Result<(), Stop>
    requires laid { IsLaid program.now.typed.now program.now.layouts.now }
    requires normal { machine.old.flow ≡ Normal }
    requires is { a.now ≡ if_else e.now body.now otherwise.now }
    ensures { IsStep program.now.typed.now program.now.bound result machine.old machine.new
        (tasks_do program.now.typed.now program.now.bound (of_stmt (stmt.run_items (items_of rest.now))
        ∷ of_stmt (stmt.run_stmt a.now) ∷ [])) }
{
    if depth == 0 {
        return run_then(machine, program, a, rest, depth);
    }
    match known_truth(machine, program, e) {
        Some(true) => first_to(machine, program, body, rest, depth - 1),
        Some(false) => first_to(machine, program, otherwise, rest, depth - 1),
        None => branch_then(machine, program, a, e, rest),
    }
}

// The same, where the condition is evaluated first.
fn branch_then<'a>(
    machine: &mut Machine<'a>,
    program: &Program<'a>,
    a: &'a TStmt,
    e: &'a TExpr,
    rest: &'a [Item],
) -> Result<(), Stop>
    requires laid { IsLaid program.now.typed.now program.now.layouts.now }
    requires normal { machine.old.flow ≡ Normal }
    ensures { (body otherwise : StmtTree) → a.now ≡ if_else e.now body otherwise →
        IsStep program.now.typed.now program.now.bound result machine.old machine.new
        (tasks_do program.now.typed.now program.now.bound (of_stmt (stmt.run_items (items_of rest.now))
        ∷ of_stmt (stmt.run_stmt a.now) ∷ [])) }
{
    machine.tasks.push(Task::OfStmt(StmtTask::RunItems(rest)))?;
    branch_later(machine, program, a, e)
}

// A loop with this condition, and the items after it.
#[cycle(run)]
fn while_then<'a>(
    machine: &mut Machine<'a>,
    program: &Program<'a>,
    a: &'a TStmt,
    e: &'a TExpr,
    body: &'a TStmt,
    rest: &'a [Item],
    depth: u32,
) -> Result<(), Stop>
    requires laid { IsLaid program.now.typed.now program.now.layouts.now }
    requires normal { machine.old.flow ≡ Normal }
    ensures { (step : OptionalExpr) → a.now ≡ while_loop e.now step body.now →
        IsStep program.now.typed.now program.now.bound result machine.old machine.new
        (tasks_do program.now.typed.now program.now.bound (of_stmt (stmt.run_items (items_of rest.now))
        ∷ of_stmt (stmt.run_stmt a.now) ∷ [])) }
{
    match known_truth(machine, program, e) {
        Some(true) => turn_then(machine, program, a, body, rest, depth),
        Some(false) => items_to(machine, program, rest, depth),
        None => ask_then(machine, program, a, e, rest),
    }
}

// Its first turn, after which the items wait.
#[cycle(run)]
fn turn_then<'a>(
    machine: &mut Machine<'a>,
    program: &Program<'a>,
    a: &'a TStmt,
    body: &'a TStmt,
    rest: &'a [Item],
    depth: u32,
) -> Result<(), Stop>
    requires laid { IsLaid program.now.typed.now program.now.layouts.now }
    requires normal { machine.old.flow ≡ Normal }
    ensures { IsStep program.now.typed.now program.now.bound result machine.old machine.new
        (loop_then program.now.typed.now program.now.bound (items_of rest.now)
        (turns_do program.now.typed.now program.now.bound
        (turn_tasks program.now.bound a.now body.now))) }
{
    machine.tasks.push(Task::OfStmt(StmtTask::RunItems(rest)))?;
    machine.tasks.push(Task::Handler(Handler::EndSwitch))?;
    turn_to(machine, program, program.bound, a, body, depth)
}

// The same, where the condition is evaluated first.
fn ask_then<'a>(
    machine: &mut Machine<'a>,
    program: &Program<'a>,
    a: &'a TStmt,
    e: &'a TExpr,
    rest: &'a [Item],
) -> Result<(), Stop>
    requires laid { IsLaid program.now.typed.now program.now.layouts.now }
    requires normal { machine.old.flow ≡ Normal }
    ensures { IsStep program.now.typed.now program.now.bound result machine.old machine.new
        (loop_then program.now.typed.now program.now.bound (items_of rest.now)
        (tasks_do program.now.typed.now program.now.bound
        (of_stmt (stmt.turn_if program.now.bound a.now) ∷ of_expr (task.evaluate e.now) ∷ []))) }
{
    machine.tasks.push(Task::OfStmt(StmtTask::RunItems(rest)))?;
    machine.tasks.push(Task::Handler(Handler::EndSwitch))?;
    ask_again(machine, program, program.bound, a, e)
}

// An expression whose value is dropped, and the items after it.
#[cycle(run)]
fn value_to<'a>(
    machine: &mut Machine<'a>,
    program: &Program<'a>,
    e: &'a TExpr,
    rest: &'a [Item],
    depth: u32,
) -> Result<(), Stop>
    requires laid { IsLaid program.now.typed.now program.now.layouts.now }
    requires normal { machine.old.flow ≡ Normal }
    ensures { IsStep program.now.typed.now program.now.bound result machine.old machine.new
        (tasks_do program.now.typed.now program.now.bound
        (of_stmt (stmt.run_items (items_of rest.now)) ∷ optional_tasks (some_expr e.now))) }
{
    match performed(machine, program, e) {
        Ok(true) => items_to(machine, program, rest, depth),
        Ok(false) => value_later(machine, program, e, rest),
        Err(stop) => Err(stop),
    }
}

// The same, where the expression is evaluated first.
fn value_later<'a>(
    machine: &mut Machine<'a>,
    program: &Program<'a>,
    e: &'a TExpr,
    rest: &'a [Item],
) -> Result<(), Stop>
    requires laid { IsLaid program.now.typed.now program.now.layouts.now }
    requires normal { machine.old.flow ≡ Normal }
    ensures { (n : ℕ) → IsStep program.now.typed.now n result machine.old machine.new
        (tasks_do program.now.typed.now n
        (of_stmt (stmt.run_items (items_of rest.now)) ∷ optional_tasks (some_expr e.now))) }
{
    machine.tasks.push(Task::OfStmt(StmtTask::RunItems(rest)))?;
    evaluate_and_drop(machine, program, e)
}

// A value variable comes into scope, and then the items after it are run.
#[cycle(run)]
fn declare_to<'a>(
    machine: &mut Machine<'a>,
    program: &Program<'a>,
    initial: &'a Initial,
    rest: &'a [Item],
    depth: u32,
) -> Result<(), Stop>
    requires laid { IsLaid program.now.typed.now program.now.layouts.now }
    requires normal { machine.old.flow ≡ Normal }
    ensures { IsStep program.now.typed.now program.now.bound result machine.old machine.new
        (declared_do program.now.typed.now program.now.bound (initial_of initial.now) (items_of rest.now)) }
{
    let count = machine.slots.len();
    machine.tasks.push(Task::Handler(Handler::EndScope(count)))?;
    machine.slots.push(Slot::Holds(Value::Bad))?;
    match initial {
        Initial::Value(e) => begin_to(machine, program, e, rest, depth),
        Initial::Nothing => items_to(machine, program, rest, depth),
        Initial::Elements(_) => items_to(machine, program, rest, depth),
    }
}

// The newest variable begins with the value of an expression, and then the items after it are run.
#[cycle(run)]
fn begin_to<'a>(
    machine: &mut Machine<'a>,
    program: &Program<'a>,
    e: &'a TExpr,
    rest: &'a [Item],
    depth: u32,
) -> Result<(), Stop>
    requires laid { IsLaid program.now.typed.now program.now.layouts.now }
    requires normal { machine.old.flow ≡ Normal }
    ensures { IsStep program.now.typed.now program.now.bound result machine.old machine.new
        (tasks_do program.now.typed.now program.now.bound
        (of_stmt (stmt.run_items (items_of rest.now)) ∷ of_stmt stmt.begin_slot
        ∷ of_expr (task.evaluate e.now) ∷ [])) }
{
    match known(machine, program, e) {
        Some(v) => begin_known(machine, program, v, e, rest, depth),
        None => begin_later(machine, program, e, rest),
    }
}

// The same, where the expression gives this value.
#[cycle(run)]
fn begin_known<'a>(
    machine: &mut Machine<'a>,
    program: &Program<'a>,
    v: Value,
    e: &TExpr,
    rest: &'a [Item],
    depth: u32,
) -> Result<(), Stop>
    requires laid { IsLaid program.now.typed.now program.now.layouts.now }
    requires normal { machine.old.flow ≡ Normal }
    requires known { (n : ℕ) → Knows program.now.typed.now n machine.old
        (λ c s. IsValue c e.now s (Some v)) }
    ensures { IsStep program.now.typed.now program.now.bound result machine.old machine.new
        (tasks_do program.now.typed.now program.now.bound
        (of_stmt (stmt.run_items (items_of rest.now)) ∷ of_stmt stmt.begin_slot
        ∷ of_expr (task.evaluate e.now) ∷ [])) }
{
    let Some(w) = used(v) else {
        return Err(Stop::Undefined);
    };
    machine.slots.pop();
    machine.slots.push(Slot::Holds(w))?;
    items_to(machine, program, rest, depth)
}

// The same, where the expression is evaluated first.
fn begin_later<'a>(
    machine: &mut Machine<'a>,
    program: &Program<'a>,
    e: &'a TExpr,
    rest: &'a [Item],
) -> Result<(), Stop>
    requires laid { IsLaid program.now.typed.now program.now.layouts.now }
    requires normal { machine.old.flow ≡ Normal }
    ensures { (n : ℕ) → IsStep program.now.typed.now n result machine.old machine.new
        (tasks_do program.now.typed.now n (of_stmt (stmt.run_items (items_of rest.now))
        ∷ of_stmt stmt.begin_slot ∷ of_expr (task.evaluate e.now) ∷ [])) }
{
    machine.tasks.push(Task::OfStmt(StmtTask::RunItems(rest)))?;
    machine.tasks.push(Task::OfStmt(StmtTask::BeginSlot))?;
    evaluate_unknown(machine, program, e)
}

// A loop, which is looked into so deep.
#[cycle(run)]
fn loop_to<'a>(
    machine: &mut Machine<'a>,
    program: &Program<'a>,
    a: &'a TStmt,
    depth: u32,
) -> Result<(), Stop>
    requires laid { IsLaid program.now.typed.now program.now.layouts.now }
    requires normal { machine.old.flow ≡ Normal }
    ensures { IsStep program.now.typed.now program.now.bound result machine.old machine.new
        (tasks_do program.now.typed.now program.now.bound
        (handler stmt.end_switch ∷ of_stmt (stmt.run_turns program.now.bound a.now) ∷ [])) }
{
    machine.tasks.push(Task::Handler(Handler::EndSwitch))?;
    turns_to(machine, program, program.bound, a, depth)
}

// The turns of a loop, of which so many are left.
#[cycle(run)]
fn turns_to<'a>(
    machine: &mut Machine<'a>,
    program: &Program<'a>,
    turns: u64,
    a: &'a TStmt,
    depth: u32,
) -> Result<(), Stop>
    requires laid { IsLaid program.now.typed.now program.now.layouts.now }
    requires normal { machine.old.flow ≡ Normal }
    ensures { IsStep program.now.typed.now program.now.bound result machine.old machine.new
        (stmt_task_run program.now.typed.now program.now.bound (stmt.run_turns turns a.now)) }
{
    match &a.form {
        StmtForm::Loop {
            condition,
            body,
            ..
        } => match condition {
            Some(e) => while_to(machine, program, turns, a, e, body, depth),
            None => turn_to(machine, program, turns, a, body, depth),
        },
        StmtForm::DoWhile { body, .. } => turn_to(machine, program, turns, a, body, depth),
        _ => put_turns(machine, turns, a),
    }
}

// The same of a loop with this condition.
#[cycle(run)]
fn while_to<'a>(
    machine: &mut Machine<'a>,
    program: &Program<'a>,
    turns: u64,
    a: &'a TStmt,
    e: &'a TExpr,
    body: &'a TStmt,
    depth: u32,
) -> Result<(), Stop>
    requires laid { IsLaid program.now.typed.now program.now.layouts.now }
    requires normal { machine.old.flow ≡ Normal }
    ensures { (step : OptionalExpr) → a.now ≡ while_loop e.now step body.now →
        IsStep program.now.typed.now program.now.bound result machine.old machine.new
        (stmt_task_run program.now.typed.now program.now.bound (stmt.run_turns turns a.now)) }
{
    match known_truth(machine, program, e) {
        Some(true) => turn_to(machine, program, turns, a, body, depth),
        Some(false) => Ok(()),
        None => ask_again(machine, program, turns, a, e),
    }
}

// A turn of this loop, where one is left; its body is looked into so deep.
#[cycle(run)]
fn turn_to<'a>(
    machine: &mut Machine<'a>,
    program: &Program<'a>,
    turns: u64,
    a: &'a TStmt,
    body: &'a TStmt,
    depth: u32,
) -> Result<(), Stop>
    requires laid { IsLaid program.now.typed.now program.now.layouts.now }
    requires normal { machine.old.flow ≡ Normal }
    ensures { IsStep program.now.typed.now program.now.bound result machine.old machine.new
        (turns_do program.now.typed.now program.now.bound
        (turn_tasks turns a.now body.now)) }
{
    if turns == 0 {
        return Err(Stop::Cut);
    }
    machine
        .tasks
        .push(Task::Handler(Handler::Again(turns - 1, a)))?;
    run_to(machine, program, body, depth)
}

/// Whether a statement is a loop.
pub(crate) fn is_loop(a: &TStmt) -> bool
    ensures { result ≡ is_loop a.now }
{
    matches!(&a.form, StmtForm::Loop { .. } | StmtForm::DoWhile { .. })
}

// A loop becomes tasks.
fn put_turns<'a>(machine: &mut Machine<'a>, turns: u64, a: &'a TStmt) -> Result<(), Stop>
    requires { machine.old.flow ≡ Normal }
    ensures { (p : ProgramTree) (n : ℕ)
        → IsStep p n result machine.old machine.new
        (stmt_task_run p n (stmt.run_turns turns a.now)) }
{
    if !is_loop(a) {
        return Err(Stop::Undefined);
    }
    if c_interp_answer::run_turns(turns, a, &mut machine.tasks)? {
        Ok(())
    } else {
        Err(Stop::Cut)
    }
}

/// The condition of a loop, which is evaluated, and its turns where that is true.
pub(crate) fn ask_again<'a>(
    machine: &mut Machine<'a>,
    program: &Program<'a>,
    turns: u64,
    a: &'a TStmt,
    e: &'a TExpr,
) -> Result<(), Stop>
    requires laid { IsLaid program.now.typed.now program.now.layouts.now }
    requires normal { machine.old.flow ≡ Normal }
    ensures { IsStep program.now.typed.now program.now.bound result machine.old machine.new
        (tasks_do program.now.typed.now program.now.bound
        (of_stmt (stmt.turn_if turns a.now) ∷ of_expr (task.evaluate e.now) ∷ [])) }
{
    machine
        .tasks
        .push(Task::OfStmt(StmtTask::OnStmt(Stage::TurnIf(turns), a)))?;
    evaluate_unknown(machine, program, e)
}
