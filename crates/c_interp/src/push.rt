//! Tasks that are put, and one of two by a condition.

ghost use Rattle.std.specs.Prelude.{◌≡◌, ◌∷◌, [], ℕ};
ghost use Rattle.c_typed.specs.Typed.{ProgramTree};
ghost use Rattle.c_interp_answer.specs.TaskViews.{task_of};
ghost use Rattle.c_interp_def.specs.declared.task.Flow.TheVariants.{Normal};
ghost use Rattle.c_interp.specs.Steps.{IsStep, choose_run, tasks_do};

use crate::machine::Machine;
use crate::stop::Stop;
use c_interp_def::Task;

/// One more task.
pub(crate) fn put<'a>(machine: &mut Machine<'a>, task: Task<'a>) -> Result<(), Stop>
    requires { machine.old.flow ≡ Normal }
    ensures { (p : ProgramTree) (n : ℕ)
        → IsStep p n result machine.old machine.new (tasks_do p n (task_of task.entry ∷ [])) }
{
    machine.tasks.push(task)?;
    Ok(())
}

/// Two more tasks, the second of which is done first.
pub(crate) fn put2<'a>(machine: &mut Machine<'a>, a: Task<'a>, b: Task<'a>) -> Result<(), Stop>
    requires { machine.old.flow ≡ Normal }
    ensures { (p : ProgramTree) (n : ℕ)
        → IsStep p n result machine.old machine.new
        (tasks_do p n (task_of a.entry ∷ task_of b.entry ∷ [])) }
{
    machine.tasks.push(a)?;
    machine.tasks.push(b)?;
    Ok(())
}

/// Three more tasks, the last of which is done first.
pub(crate) fn put3<'a>(
    machine: &mut Machine<'a>,
    a: Task<'a>,
    b: Task<'a>,
    c: Task<'a>,
) -> Result<(), Stop>
    requires { machine.old.flow ≡ Normal }
    ensures { (p : ProgramTree) (n : ℕ)
        → IsStep p n result machine.old machine.new
        (tasks_do p n (task_of a.entry ∷ task_of b.entry ∷ task_of c.entry ∷ [])) }
{
    machine.tasks.push(a)?;
    put2(machine, b, c)
}

/// One of two tasks, where it is known which.
pub(crate) fn choose<'a>(
    machine: &mut Machine<'a>,
    d: Option<bool>,
    chosen: Task<'a>,
    otherwise: Task<'a>,
) -> Result<(), Stop>
    requires { machine.old.flow ≡ Normal }
    ensures { (p : ProgramTree) (n : ℕ)
        → IsStep p n result machine.old machine.new
        (choose_run d (tasks_do p n (task_of chosen.entry ∷ []))
        (tasks_do p n (task_of otherwise.entry ∷ []))) }
{
    match d {
        Some(true) => put(machine, chosen),
        Some(false) => put(machine, otherwise),
        None => Err(Stop::Undefined),
    }
}
