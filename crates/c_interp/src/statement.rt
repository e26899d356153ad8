//! Tasks of statements (ISO/IEC 9899:2011, 6.8).

ghost use Rattle.std.specs.Prelude.{◌≡◌, ◌≤◌, ℕ, [], length, drop};
ghost use Rattle.c_typed.specs.Typed.{ProgramTree, return_value};
ghost use Rattle.c_typed.specs.StmtViews.{groups_of, items_of};
ghost use Rattle.c_mean.specs.Statements.{chosen_groups, from_default};
ghost use Rattle.c_interp_answer.specs.TaskViews.{flow_of};
ghost use Rattle.c_interp_def.specs.Configurations.{variables_of};
ghost use Rattle.c_interp_def.specs.declared.task.Flow.TheVariants.{Normal};
ghost use Rattle.c_interp_def.specs.StmtTasks as stmt;
ghost use Rattle.c_interp_def.specs.StmtTasks.{stmt_task_run};
ghost use Rattle.c_interp_store.specs.Laid.{AreNumbers, IsLaid};
ghost use Rattle.c_interp.specs.Steps.{IsStep, return_run};

use crate::evaluate::evaluate_unknown;
use crate::known::known;
use crate::machine::{Machine, Program};
use crate::operands::number;
use crate::push::{choose, put};
use crate::stop::Stop;
use c_interp_def::{Flow, Stage, StmtTask, Task};
use c_interp_store::{truth, used};
use c_typed::{ExprForm, Group, Item, StmtForm, TExpr, TStmt, Variable};
use val_core::Value;

/// The variables of a function; none where there is no function of this number.
pub(crate) fn variables<'a>(program: &Program<'a>, function: u32) -> &'a [Variable]
    requires laid { IsLaid program.now.typed.now program.now.layouts.now }
    ensures { result.now ≡ variables_of program.now.typed.now function }
{
    let typed = program.typed;
    match typed.functions.get(function as usize) {
        Some(f) => &f.variables,
        None => &[],
    }
}

/// Their numbers among the objects.
pub(crate) fn numbers<'a>(program: &Program<'a>, function: u32) -> &'a [u32]
    requires laid { IsLaid program.now.typed.now program.now.layouts.now }
    ensures { AreNumbers (variables_of program.now.typed.now function)
        (length (variables_of program.now.typed.now function)) result.now }
{
    let layouts = program.layouts;
    match layouts.functions.get(function as usize) {
        Some(layout) => &layout.numbers,
        None => &[],
    }
}

/// A statement that becomes tasks.
pub(crate) fn expand<'a>(machine: &mut Machine<'a>, bound: u64, a: &'a TStmt) -> Result<(), Stop>
    requires { machine.old.flow ≡ Normal }
    ensures { (p : ProgramTree) → IsStep p bound result machine.old machine.new
        (stmt_task_run p bound (stmt.run_stmt a.now)) }
{
    c_interp_answer::run_stmt(a, bound, &mut machine.tasks)?;
    Ok(())
}

/// A return with the value of an expression.
pub(crate) fn return_value<'a>(
    machine: &mut Machine<'a>,
    program: &Program<'a>,
    e: &'a TExpr,
) -> Result<(), Stop>
    requires laid { IsLaid program.now.typed.now program.now.layouts.now }
    requires normal { machine.old.flow ≡ Normal }
    ensures { (n : ℕ) → IsStep program.now.typed.now n result machine.old machine.new
        (stmt_task_run program.now.typed.now n (stmt.run_stmt (return_value e.now))) }
{
    match &e.form {
        ExprForm::Call(..) | ExprForm::Conditional(..) => return_later(machine, program, e),
        _ => match known(machine, program, e) {
            Some(v) => return_known(machine, v),
            None => return_later(machine, program, e),
        },
    }
}

// The same, where the value is not asked for at once.
fn return_later<'a>(
    machine: &mut Machine<'a>,
    program: &Program<'a>,
    e: &'a TExpr,
) -> Result<(), Stop>
    requires laid { IsLaid program.now.typed.now program.now.layouts.now }
    requires normal { machine.old.flow ≡ Normal }
    ensures { (n : ℕ) → IsStep program.now.typed.now n result machine.old machine.new
        (stmt_task_run program.now.typed.now n (stmt.run_stmt (return_value e.now))) }
{
    machine.tasks.push(Task::OfStmt(StmtTask::ReturnIt))?;
    evaluate_unknown(machine, program, e)
}

fn return_known(machine: &mut Machine, v: Value) -> Result<(), Stop>
    requires { machine.old.flow ≡ Normal }
    ensures { (p : ProgramTree) (n : ℕ)
        → IsStep p n result machine.old machine.new (return_run v) }
{
    let Some(w) = used(v) else {
        return Err(Stop::Undefined);
    };
    machine.flow = Flow::Returned(Some(w));
    Ok(())
}

/// Items that become tasks.
pub(crate) fn expand_items<'a>(
    machine: &mut Machine<'a>,
    program: &Program<'a>,
    items: &'a [Item],
) -> Result<(), Stop>
    requires laid { IsLaid program.now.typed.now program.now.layouts.now }
    requires normal { machine.old.flow ≡ Normal }
    ensures { (n : ℕ) → IsStep program.now.typed.now n result machine.old machine.new
        (stmt_task_run program.now.typed.now n (stmt.run_items (items_of items.now))) }
{
    let function = machine.frame.function;
    let count = machine.slots.len();
    c_interp_answer::run_items(
        items,
        variables(program, function),
        numbers(program, function),
        count,
        &mut machine.tasks,
    )?;
    Ok(())
}

/// An `if` with its condition.
pub(crate) fn branch<'a>(machine: &mut Machine<'a>, a: &'a TStmt) -> Result<(), Stop>
    requires { machine.old.flow ≡ Normal }
    ensures { (p : ProgramTree) (n : ℕ)
        → IsStep p n result machine.old machine.new (stmt_task_run p n (stmt.branch a.now)) }
{
    let StmtForm::IfElse(e, then, otherwise) = &a.form else {
        return Err(Stop::Undefined);
    };
    let Some(v) = machine.operands.pop() else {
        return Err(Stop::Undefined);
    };
    choose(
        machine,
        truth(&e.ty, v),
        Task::OfStmt(StmtTask::OnStmt(Stage::Run, then)),
        Task::OfStmt(StmtTask::OnStmt(Stage::Run, otherwise)),
    )
}

/// A `switch` with its operand.
pub(crate) fn select<'a>(machine: &mut Machine<'a>, a: &'a TStmt) -> Result<(), Stop>
    requires { machine.old.flow ≡ Normal }
    ensures { (p : ProgramTree) (n : ℕ)
        → IsStep p n result machine.old machine.new (stmt_task_run p n (stmt.select a.now)) }
{
    let StmtForm::Switch(_, groups) = &a.form else {
        return Err(Stop::Undefined);
    };
    let Some(v) = machine.operands.pop() else {
        return Err(Stop::Undefined);
    };
    let Some(w) = number(v) else {
        return Err(Stop::Undefined);
    };
    let first = chosen(groups, w);
    put(machine, Task::OfStmt(StmtTask::RunGroups(&groups[first..])))
}

// The index of the group with this label, or else of that of `default`, or how many groups there
// are.
fn chosen(groups: &[Group], w: u32) -> usize
    ensures within { result ≤ length groups.now }
    ensures chosen { groups_of (drop result groups.now) ≡ chosen_groups w (groups_of groups.now) }
{
    for (i, group) in groups.iter().enumerate() {
        if group.cases.contains(&w) {
            return i;
        }
    }
    default_of(groups)
}

fn default_of(groups: &[Group]) -> usize
    ensures within { result ≤ length groups.now }
    ensures chosen { groups_of (drop result groups.now) ≡ from_default (groups_of groups.now) }
{
    for (i, group) in groups.iter().enumerate() {
        if group.is_default {
            return i;
        }
    }
    groups.len()
}

/// A jump begins.
pub(crate) fn jump(machine: &mut Machine, flow: Flow) -> Result<(), Stop>
    requires { machine.old.flow ≡ Normal }
    ensures { (p : ProgramTree) (n : ℕ)
        → IsStep p n result machine.old machine.new (stmt_task_run p n (stmt.jump (flow_of flow))) }
{
    machine.flow = flow;
    Ok(())
}

/// A return with the newest operand.
pub(crate) fn return_it(machine: &mut Machine) -> Result<(), Stop>
    requires { machine.old.flow ≡ Normal }
    ensures { (p : ProgramTree) (n : ℕ)
        → IsStep p n result machine.old machine.new (stmt_task_run p n stmt.return_it) }
{
    let Some(v) = machine.operands.pop() else {
        return Err(Stop::Undefined);
    };
    let Some(w) = used(v) else {
        return Err(Stop::Undefined);
    };
    machine.flow = Flow::Returned(Some(w));
    Ok(())
}
