//! Statements, declarations and initialisers (ISO/IEC 9899:2011, 6.8, 6.7.9).

#![tactic(auto, using(crate::proofs::Pushed::pushed_none))]

ghost use Rattle.std.specs.Prelude.{◌≡◌, ℕ, ◌<◌, ◌++◌, OnOk, IfOk, Some, length, slice_get};
ghost use Rattle.c_typed.specs.Typed.{some_expr};
ghost use Rattle.c_typed.specs.Objects.{object_number};
ghost use Rattle.c_typed.specs.StmtViews.{items_of, groups_of, elements_of, optional_of, initial_of};
ghost use Rattle.c_interp_answer.specs.TaskViews.{tasks_of, IsTurn};
ghost use Rattle.c_interp_def.specs.StmtTasks.{optional_tasks, stmt_tasks, items_tasks, initial_tasks, object_tasks, value_tasks, groups_tasks, elements_tasks, again_tasks, turns_tasks, turn_tasks};

use crate::push::{add, add2, add3};
use base::NoMemory;
use c_interp_def::{ExprTask, Handler, Stage, StmtTask, Task};
use c_typed::{Declaration, Element, Group, Initial, Item, StmtForm, TExpr, TStmt, Variable};

/// The tasks of a statement, in which a loop may take at most `bound` turns.
pub fn run_stmt<'a>(a: &'a TStmt, bound: u64, tasks: &mut Vec<Task<'a>>) -> Result<(), NoMemory>
    ensures { OnOk result (tasks_of tasks.new.items
        ≡ tasks_of tasks.old.items ++ stmt_tasks bound a.now) }
{
    match &a.form {
        StmtForm::Null => Ok(()),
        StmtForm::Value(e) => value(e, tasks),
        StmtForm::Block(items) => add(tasks, Task::OfStmt(StmtTask::RunItems(items))),
        StmtForm::IfElse(e, ..) => add2(
            tasks,
            Task::OfStmt(StmtTask::OnStmt(Stage::Branch, a)),
            Task::OfExpr(ExprTask::Evaluate(e)),
        ),
        StmtForm::Loop { .. } | StmtForm::DoWhile { .. } => add2(
            tasks,
            Task::Handler(Handler::EndSwitch),
            Task::OfStmt(StmtTask::OnStmt(Stage::RunTurns(bound), a)),
        ),
        StmtForm::Break => add(tasks, Task::OfStmt(StmtTask::Break)),
        StmtForm::Continue => add(tasks, Task::OfStmt(StmtTask::Continue)),
        StmtForm::ReturnValue(e) => add2(
            tasks,
            Task::OfStmt(StmtTask::ReturnIt),
            Task::OfExpr(ExprTask::Evaluate(e)),
        ),
        StmtForm::ReturnNone => add(tasks, Task::OfStmt(StmtTask::ReturnNone)),
        StmtForm::Switch(e, _) => add3(
            tasks,
            Task::Handler(Handler::EndSwitch),
            Task::OfStmt(StmtTask::OnStmt(Stage::Select, a)),
            Task::OfExpr(ExprTask::Evaluate(e)),
        ),
    }
}

// An expression whose value is dropped.
fn value<'a>(e: &'a TExpr, tasks: &mut Vec<Task<'a>>) -> Result<(), NoMemory>
    ensures { OnOk result (tasks_of tasks.new.items
        ≡ tasks_of tasks.old.items ++ optional_tasks (some_expr e.now)) }
{
    add2(
        tasks,
        Task::OfExpr(ExprTask::Discard),
        Task::OfExpr(ExprTask::Evaluate(e)),
    )
}

/// The tasks of the items of a block, outside which so many variables are in scope.
pub fn run_items<'a>(
    items: &'a [Item],
    variables: &'a [Variable],
    numbers: &[u32],
    in_scope: usize,
    tasks: &mut Vec<Task<'a>>,
) -> Result<(), NoMemory>
    requires { (k : ℕ) → k < length variables.now
        → slice_get numbers.now k ≡ Some (object_number variables.now k) }
    ensures { OnOk result (tasks_of tasks.new.items
        ≡ tasks_of tasks.old.items ++ items_tasks variables.now in_scope (items_of items.now)) }
{
    match items.split_first() {
        None => Ok(()),
        Some((Item::Statement(a), rest)) => add2(
            tasks,
            Task::OfStmt(StmtTask::RunItems(rest)),
            Task::OfStmt(StmtTask::OnStmt(Stage::Run, a)),
        ),
        Some((Item::Variable(d), rest)) => {
            add2(
                tasks,
                Task::Handler(Handler::EndScope(in_scope)),
                Task::OfStmt(StmtTask::RunItems(rest)),
            )?;
            initial(d, variables, numbers, tasks)?;
            add(tasks, Task::OfStmt(StmtTask::Enter(d.variable)))
        }
    }
}

// How the declared variable begins.
fn initial<'a>(
    d: &'a Declaration,
    variables: &'a [Variable],
    numbers: &[u32],
    tasks: &mut Vec<Task<'a>>,
) -> Result<(), NoMemory>
    requires { (k : ℕ) → k < length variables.now
        → slice_get numbers.now k ≡ Some (object_number variables.now k) }
    ensures { OnOk result (tasks_of tasks.new.items
        ≡ tasks_of tasks.old.items ++ initial_tasks variables.now d.now.variable
        (slice_get variables.now d.now.variable) (initial_of d.now.initial)) }
{
    let k = d.variable as usize;
    match variables.get(k) {
        Some(v) if v.is_object => object_initial(&d.initial, numbers[k], tasks),
        Some(_) => value_initial(&d.initial, tasks),
        None => Ok(()),
    }
}

fn object_initial<'a>(
    initial: &'a Initial,
    number: u32,
    tasks: &mut Vec<Task<'a>>,
) -> Result<(), NoMemory>
    ensures { OnOk result (tasks_of tasks.new.items
        ≡ tasks_of tasks.old.items ++ object_tasks number (initial_of initial.now)) }
{
    match initial {
        Initial::Nothing => Ok(()),
        Initial::Value(e) => add2(
            tasks,
            Task::OfStmt(StmtTask::BeginObject(number, &e.ty)),
            Task::OfExpr(ExprTask::Evaluate(e)),
        ),
        Initial::Elements(es) => add2(
            tasks,
            Task::OfStmt(StmtTask::BeginElements(number, es)),
            Task::OfStmt(StmtTask::ClearObject(number)),
        ),
    }
}

fn value_initial<'a>(initial: &'a Initial, tasks: &mut Vec<Task<'a>>) -> Result<(), NoMemory>
    ensures { OnOk result (tasks_of tasks.new.items
        ≡ tasks_of tasks.old.items ++ value_tasks (initial_of initial.now)) }
{
    match initial {
        Initial::Value(e) => add2(
            tasks,
            Task::OfStmt(StmtTask::BeginSlot),
            Task::OfExpr(ExprTask::Evaluate(e)),
        ),
        _ => Ok(()),
    }
}

/// The tasks of groups of a `switch`, one after the other.
pub fn run_groups<'a>(groups: &'a [Group], tasks: &mut Vec<Task<'a>>) -> Result<(), NoMemory>
    ensures { OnOk result (tasks_of tasks.new.items
        ≡ tasks_of tasks.old.items ++ groups_tasks (groups_of groups.now)) }
{
    match groups.split_first() {
        None => Ok(()),
        Some((group, rest)) => add2(
            tasks,
            Task::OfStmt(StmtTask::RunGroups(rest)),
            Task::OfStmt(StmtTask::RunItems(&group.body)),
        ),
    }
}

/// The tasks of elements of the initialiser of the object of this number.
pub fn begin_elements<'a>(
    number: u32,
    elements: &'a [Element],
    tasks: &mut Vec<Task<'a>>,
) -> Result<(), NoMemory>
    ensures { OnOk result (tasks_of tasks.new.items
        ≡ tasks_of tasks.old.items ++ elements_tasks number (elements_of elements.now)) }
{
    match elements.split_first() {
        None => Ok(()),
        Some((Element::Value { offset, value }, rest)) => add3(
            tasks,
            Task::OfStmt(StmtTask::BeginElements(number, rest)),
            Task::OfStmt(StmtTask::BeginElement(number, *offset, &value.ty)),
            Task::OfExpr(ExprTask::Evaluate(value)),
        ),
        Some((Element::Characters { offset, characters }, rest)) => add2(
            tasks,
            Task::OfStmt(StmtTask::BeginElements(number, rest)),
            Task::OfStmt(StmtTask::BeginCharacters(number, *offset, characters)),
        ),
    }
}

/// The tasks of a loop of which at most so many turns are left. `false` where no turn is left and
/// no condition is to be asked: the run is cut.
pub fn run_turns<'a>(turns: u64, a: &'a TStmt, tasks: &mut Vec<Task<'a>>) -> Result<bool, NoMemory>
    ensures { IfOk result
        (IsTurn (turns_tasks turns a.now) (tasks_of tasks.old.items) (tasks_of tasks.new.items)) }
{
    match &a.form {
        StmtForm::Loop {
            condition: Some(e),
            ..
        } => {
            add2(
                tasks,
                Task::OfStmt(StmtTask::OnStmt(Stage::TurnIf(turns), a)),
                Task::OfExpr(ExprTask::Evaluate(e)),
            )?;
            Ok(true)
        }
        StmtForm::Loop { body, .. } | StmtForm::DoWhile { body, .. } => turn(turns, a, body, tasks),
        _ => Ok(false),
    }
}

/// The tasks of a turn of this loop, where one is left; else `false`.
pub fn turn<'a>(
    turns: u64,
    a: &'a TStmt,
    body: &'a TStmt,
    tasks: &mut Vec<Task<'a>>,
) -> Result<bool, NoMemory>
    ensures { IfOk result (IsTurn (turn_tasks turns a.now body.now)
        (tasks_of tasks.old.items) (tasks_of tasks.new.items)) }
{
    if turns == 0 {
        return Ok(false);
    }
    add2(
        tasks,
        Task::Handler(Handler::Again(turns - 1, a)),
        Task::OfStmt(StmtTask::OnStmt(Stage::Run, body)),
    )?;
    Ok(true)
}

/// The tasks after a turn of a loop that goes on.
pub fn again<'a>(turns: u64, a: &'a TStmt, tasks: &mut Vec<Task<'a>>) -> Result<(), NoMemory>
    ensures { OnOk result
        (tasks_of tasks.new.items ≡ tasks_of tasks.old.items ++ again_tasks turns a.now) }
{
    match &a.form {
        StmtForm::Loop { step, .. } => {
            add(
                tasks,
                Task::OfStmt(StmtTask::OnStmt(Stage::RunTurns(turns), a)),
            )?;
            optional(step, tasks)
        }
        StmtForm::DoWhile { condition, .. } => add2(
            tasks,
            Task::OfStmt(StmtTask::OnStmt(Stage::TurnIf(turns), a)),
            Task::OfExpr(ExprTask::Evaluate(condition)),
        ),
        _ => Ok(()),
    }
}

// The step of a loop, which may be left out.
fn optional<'a>(e: &'a Option<TExpr>, tasks: &mut Vec<Task<'a>>) -> Result<(), NoMemory>
    ensures { OnOk result (tasks_of tasks.new.items
        ≡ tasks_of tasks.old.items ++ optional_tasks (optional_of e.now)) }
{
    match e {
        Some(e) => value(e, tasks),
        None => Ok(()),
    }
}
