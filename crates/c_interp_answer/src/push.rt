//! Tasks at the end of a list, of which the last is done first.

ghost use Rattle.std.specs.Prelude.{◌≡◌, [], ◌∷◌, ◌++◌, OnOk};
ghost use Rattle.c_interp_answer.specs.TaskViews.{expr_task_of, task_of, tasks_of};
ghost use Rattle.c_interp_def.specs.StmtTasks.{of_expr};

use base::NoMemory;
use c_interp_def::{ExprTask, Task};

/// One more task.
#[tactic(auto, using(crate::proofs::Pushed::pushed))]
pub(crate) fn add<'a>(tasks: &mut Vec<Task<'a>>, task: Task<'a>) -> Result<(), NoMemory>
    ensures { OnOk result
        (tasks_of tasks.new.items ≡ tasks_of tasks.old.items ++ task_of task.entry ∷ []) }
{
    tasks.push(task)?;
    Ok(())
}

/// Two more tasks.
#[tactic(auto, using(crate::proofs::Pushed::pushed_more))]
pub(crate) fn add2<'a>(tasks: &mut Vec<Task<'a>>, a: Task<'a>, b: Task<'a>) -> Result<(), NoMemory>
    ensures { OnOk result
        (tasks_of tasks.new.items ≡ tasks_of tasks.old.items
        ++ (task_of a.entry ∷ task_of b.entry ∷ [])) }
{
    add(tasks, a)?;
    add(tasks, b)
}

/// Three more tasks.
#[tactic(auto, using(crate::proofs::Pushed::pushed_more))]
pub(crate) fn add3<'a>(
    tasks: &mut Vec<Task<'a>>,
    a: Task<'a>,
    b: Task<'a>,
    c: Task<'a>,
) -> Result<(), NoMemory>
    ensures { OnOk result
        (tasks_of tasks.new.items ≡ tasks_of tasks.old.items
        ++ (task_of a.entry ∷ task_of b.entry ∷ task_of c.entry ∷ [])) }
{
    add(tasks, a)?;
    add2(tasks, b, c)
}

/// One more task of an expression.
pub(crate) fn push<'a>(tasks: &mut Vec<Task<'a>>, a: ExprTask<'a>) -> Result<(), NoMemory>
    ensures { OnOk result
        (tasks_of tasks.new.items
        ≡ tasks_of tasks.old.items ++ of_expr (expr_task_of a.entry) ∷ []) }
{
    add(tasks, Task::OfExpr(a))
}

/// Two more tasks of an expression.
pub(crate) fn push2<'a>(
    tasks: &mut Vec<Task<'a>>,
    a: ExprTask<'a>,
    b: ExprTask<'a>,
) -> Result<(), NoMemory>
    ensures { OnOk result
        (tasks_of tasks.new.items ≡ tasks_of tasks.old.items
        ++ (of_expr (expr_task_of a.entry) ∷ of_expr (expr_task_of b.entry) ∷ [])) }
{
    add2(tasks, Task::OfExpr(a), Task::OfExpr(b))
}

/// Three more tasks of an expression.
pub(crate) fn push3<'a>(
    tasks: &mut Vec<Task<'a>>,
    a: ExprTask<'a>,
    b: ExprTask<'a>,
    c: ExprTask<'a>,
) -> Result<(), NoMemory>
    ensures { OnOk result
        (tasks_of tasks.new.items ≡ tasks_of tasks.old.items
        ++ (of_expr (expr_task_of a.entry) ∷ of_expr (expr_task_of b.entry)
        ∷ of_expr (expr_task_of c.entry) ∷ [])) }
{
    add3(tasks, Task::OfExpr(a), Task::OfExpr(b), Task::OfExpr(c))
}

/// Four more tasks of an expression.
#[tactic(auto, using(crate::proofs::Pushed::pushed_more))]
pub(crate) fn push4<'a>(
    tasks: &mut Vec<Task<'a>>,
    a: ExprTask<'a>,
    b: ExprTask<'a>,
    c: ExprTask<'a>,
    d: ExprTask<'a>,
) -> Result<(), NoMemory>
    ensures { OnOk result
        (tasks_of tasks.new.items ≡ tasks_of tasks.old.items
        ++ (of_expr (expr_task_of a.entry) ∷ of_expr (expr_task_of b.entry)
        ∷ of_expr (expr_task_of c.entry) ∷ of_expr (expr_task_of d.entry) ∷ [])) }
{
    add(tasks, Task::OfExpr(a))?;
    push3(tasks, b, c, d)
}
