//! Tasks of loops, and what a jump leaves (ISO/IEC 9899:2011, 6.8.5, 6.8.6).

ghost use Rattle.std.specs.Prelude.{◌≡◌, ℕ, ◌∷◌};
ghost use Rattle.c_typed.specs.Typed.{ProgramTree, some_expr};
ghost use Rattle.c_interp_answer.specs.TaskViews.{flow_of};
ghost use Rattle.c_interp_def.specs.declared.task.Flow.TheVariants.{Normal};
ghost use Rattle.c_interp_def.specs.StmtTasks as stmt;
ghost use Rattle.c_interp_def.specs.StmtTasks.{of_stmt, stmt_task_run, handler_run, turn_tasks, again_tasks, optional_tasks};
ghost use Rattle.c_interp_store.specs.Laid.{IsLaid};
ghost use Rattle.c_interp.specs.Steps.{IsStep, tasks_do, turns_do, asked_do};

use crate::machine::{Machine, Program};
use crate::nested::{ask_again, is_loop, run_turns, turn};
use crate::perform::{evaluate_and_drop, performed};
use crate::push::put;
use crate::stop::Stop;
use c_interp_def::{Flow, Stage, StmtTask, Task};
use c_interp_store::truth;
use c_type::CType;
use c_typed::{StmtForm, TExpr, TStmt};

/// A loop with its condition, of which so many turns are left.
pub(crate) fn turn_if<'a>(
    machine: &mut Machine<'a>,
    program: &Program<'a>,
    turns: u64,
    a: &'a TStmt,
) -> Result<(), Stop>
    requires laid { IsLaid program.now.typed.now program.now.layouts.now }
    requires normal { machine.old.flow ≡ Normal }
    ensures { IsStep program.now.typed.now program.now.bound result machine.old machine.new
        (stmt_task_run program.now.typed.now program.now.bound (stmt.turn_if turns a.now)) }
{
    match &a.form {
        StmtForm::Loop {
            condition,
            body,
            ..
        } => match condition {
            Some(e) => turn_while(machine, program, turns, a, &e.ty, body),
            None => Err(Stop::Undefined),
        },
        StmtForm::DoWhile { condition, .. } => turn_again(machine, turns, a, &condition.ty),
        _ => Err(Stop::Undefined),
    }
}

// The same of a loop with a condition of this type.
fn turn_while<'a>(
    machine: &mut Machine<'a>,
    program: &Program<'a>,
    turns: u64,
    a: &'a TStmt,
    t: &CType,
    body: &'a TStmt,
) -> Result<(), Stop>
    requires laid { IsLaid program.now.typed.now program.now.layouts.now }
    requires normal { machine.old.flow ≡ Normal }
    ensures { IsStep program.now.typed.now program.now.bound result machine.old machine.new
        (asked_do t.now (turns_do program.now.typed.now program.now.bound
        (turn_tasks turns a.now body.now))) }
{
    let Some(v) = machine.operands.pop() else {
        return Err(Stop::Undefined);
    };
    match truth(t, v) {
        Some(true) => turn(machine, program, turns, a, body),
        Some(false) => Ok(()),
        None => Err(Stop::Undefined),
    }
}

// The same of a `do` statement with a condition of this type.
fn turn_again<'a>(
    machine: &mut Machine<'a>,
    turns: u64,
    a: &'a TStmt,
    t: &CType,
) -> Result<(), Stop>
    requires { machine.old.flow ≡ Normal }
    ensures { (p : ProgramTree) (n : ℕ)
        → IsStep p n result machine.old machine.new
        (asked_do t.now (stmt_task_run p n (stmt.run_turns turns a.now))) }
{
    let Some(v) = machine.operands.pop() else {
        return Err(Stop::Undefined);
    };
    match truth(t, v) {
        Some(true) => put(
            machine,
            Task::OfStmt(StmtTask::OnStmt(Stage::RunTurns(turns), a)),
        ),
        Some(false) => Ok(()),
        None => Err(Stop::Undefined),
    }
}

/// A loop or a `switch` has ended: its own `break` ends it alone.
pub(crate) fn end_switch(machine: &mut Machine) -> Result<(), Stop>
    ensures { (p : ProgramTree) (n : ℕ)
        → IsStep p n result machine.old machine.new
        (handler_run p n stmt.end_switch (flow_of machine.old.flow)) }
{
    match machine.flow {
        Flow::Broke => {
            machine.flow = Flow::Normal;
            Ok(())
        }
        _ => Ok(()),
    }
}

/// A turn of a loop has ended, and so many are left: the loop goes on, or is left.
pub(crate) fn again<'a>(
    machine: &mut Machine<'a>,
    program: &Program<'a>,
    turns: u64,
    a: &'a TStmt,
) -> Result<(), Stop>
    requires laid { IsLaid program.now.typed.now program.now.layouts.now }
    ensures { IsStep program.now.typed.now program.now.bound result machine.old machine.new
        (handler_run program.now.typed.now program.now.bound (stmt.again turns a.now)
        (flow_of machine.old.flow)) }
{
    if !is_loop(a) {
        return Err(Stop::Undefined);
    }
    match machine.flow {
        Flow::Normal => go_on(machine, program, turns, a),
        Flow::Continued => go_on(machine, program, turns, a),
        Flow::Broke => Ok(()),
        Flow::Returned(_) => Ok(()),
    }
}

// The loop goes on.
fn go_on<'a>(
    machine: &mut Machine<'a>,
    program: &Program<'a>,
    turns: u64,
    a: &'a TStmt,
) -> Result<(), Stop>
    requires laid { IsLaid program.now.typed.now program.now.layouts.now }
    ensures { IsStep program.now.typed.now program.now.bound result machine.old machine.new
        (tasks_do program.now.typed.now program.now.bound (again_tasks turns a.now)) }
{
    machine.flow = Flow::Normal;
    match &a.form {
        StmtForm::Loop { step, .. } => match step {
            Some(e) => step_then(machine, program, turns, a, e),
            None => run_turns(machine, program, turns, a),
        },
        StmtForm::DoWhile { condition, .. } => ask_again(machine, program, turns, a, condition),
        _ => put_again(machine, turns, a),
    }
}

// A loop that goes on becomes tasks.
fn put_again<'a>(machine: &mut Machine<'a>, turns: u64, a: &'a TStmt) -> Result<(), Stop>
    requires { machine.old.flow ≡ Normal }
    ensures { (p : ProgramTree) (n : ℕ)
        → IsStep p n result machine.old machine.new (tasks_do p n (again_tasks turns a.now)) }
{
    c_interp_answer::again(turns, a, &mut machine.tasks)?;
    Ok(())
}

// The step of a loop, and its turns.
fn step_then<'a>(
    machine: &mut Machine<'a>,
    program: &Program<'a>,
    turns: u64,
    a: &'a TStmt,
    e: &'a TExpr,
) -> Result<(), Stop>
    requires laid { IsLaid program.now.typed.now program.now.layouts.now }
    requires normal { machine.old.flow ≡ Normal }
    ensures { IsStep program.now.typed.now program.now.bound result machine.old machine.new
        (tasks_do program.now.typed.now program.now.bound
        (of_stmt (stmt.run_turns turns a.now) ∷ optional_tasks (some_expr e.now))) }
{
    match performed(machine, program, e) {
        Ok(true) => run_turns(machine, program, turns, a),
        Ok(false) => step_later(machine, program, turns, a, e),
        Err(stop) => Err(stop),
    }
}

// The same, where the step is evaluated first.
fn step_later<'a>(
    machine: &mut Machine<'a>,
    program: &Program<'a>,
    turns: u64,
    a: &'a TStmt,
    e: &'a TExpr,
) -> Result<(), Stop>
    requires laid { IsLaid program.now.typed.now program.now.layouts.now }
    requires normal { machine.old.flow ≡ Normal }
    ensures { (n : ℕ) → IsStep program.now.typed.now n result machine.old machine.new
        (tasks_do program.now.typed.now n
        (of_stmt (stmt.run_turns turns a.now) ∷ optional_tasks (some_expr e.now))) }
{
    machine
        .tasks
        .push(Task::OfStmt(StmtTask::OnStmt(Stage::RunTurns(turns), a)))?;
    evaluate_and_drop(machine, program, e)
}

/// A scope has ended, outside which so many variables are in scope.
pub(crate) fn end_scope(machine: &mut Machine, count: usize) -> Result<(), Stop>
    ensures { (p : ProgramTree) (n : ℕ)
        → IsStep p n result machine.old machine.new
        (handler_run p n (stmt.end_scope count) (flow_of machine.old.flow)) }
{
    machine.slots.truncate(count);
    Ok(())
}
