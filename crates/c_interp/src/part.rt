//! Tasks of parts of a program that become the tasks of their own parts.

ghost use Rattle.std.specs.Prelude.{◌≡◌, ℕ};
ghost use Rattle.c_typed.specs.Typed.{ProgramTree, exprs_of};
ghost use Rattle.c_typed.specs.StmtViews.{groups_of, elements_of};
ghost use Rattle.c_interp_def.specs.declared.task.Flow.TheVariants.{Normal};
ghost use Rattle.c_interp_def.specs.ExprTasks as task;
ghost use Rattle.c_interp_def.specs.ExprTasks.{expr_task_run};
ghost use Rattle.c_interp_def.specs.StmtTasks as stmt;
ghost use Rattle.c_interp_def.specs.StmtTasks.{stmt_task_run};
ghost use Rattle.c_interp.specs.Steps.{IsStep};

use crate::machine::Machine;
use crate::stop::Stop;
use c_typed::{Element, Group, TExpr};

/// Expressions whose values are dropped.
pub(crate) fn drop_each<'a>(machine: &mut Machine<'a>, es: &'a [TExpr]) -> Result<(), Stop>
    requires { machine.old.flow ≡ Normal }
    ensures { (p : ProgramTree) (n : ℕ)
        → IsStep p n result machine.old machine.new
        (expr_task_run p n (task.drop_each (exprs_of es.now))) }
{
    c_interp_answer::drop_each(es, &mut machine.tasks)?;
    Ok(())
}

/// Groups of a `switch`, one after the other.
pub(crate) fn run_groups<'a>(machine: &mut Machine<'a>, gs: &'a [Group]) -> Result<(), Stop>
    requires { machine.old.flow ≡ Normal }
    ensures { (p : ProgramTree) (n : ℕ)
        → IsStep p n result machine.old machine.new
        (stmt_task_run p n (stmt.run_groups (groups_of gs.now))) }
{
    c_interp_answer::run_groups(gs, &mut machine.tasks)?;
    Ok(())
}

/// Elements of the initialiser of the object of this number.
pub(crate) fn begin_elements<'a>(
    machine: &mut Machine<'a>,
    number: u32,
    es: &'a [Element],
) -> Result<(), Stop>
    requires { machine.old.flow ≡ Normal }
    ensures { (p : ProgramTree) (n : ℕ)
        → IsStep p n result machine.old machine.new
        (stmt_task_run p n (stmt.begin_elements number (elements_of es.now))) }
{
    c_interp_answer::begin_elements(number, es, &mut machine.tasks)?;
    Ok(())
}
