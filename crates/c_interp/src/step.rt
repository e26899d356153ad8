//! One step of the machine: what each task does.

ghost use Rattle.std.specs.Prelude.{◌≡◌, ◌≤◌, ℕ, Bool, true, Option, List};
ghost use Rattle.c_typed.specs.Typed.{ProgramTree};
ghost use Rattle.cc_io.specs.Faults.{Increased};
ghost use Rattle.cc_io.specs.Source.{IsAtEnd};
ghost use Rattle.c_interp_answer.specs.TaskViews.{expr_task_of, stmt_task_of, handler_of, on_stmt, task_of, flow_of};
ghost use Rattle.c_interp_def.specs.declared.task.Flow.TheVariants.{Normal};
ghost use Rattle.c_interp_def.specs.ExprTasks as task;
ghost use Rattle.c_interp_def.specs.ExprTasks.{expr_task_run};
ghost use Rattle.c_interp_def.specs.StmtTasks.{of_stmt, stmt_task_run, handler_run};
ghost use Rattle.c_interp_store.specs.Laid.{IsLaid};
ghost use Rattle.c_interp.specs.Steps.{IsStep, task_from};
ghost use Rattle.c_interp.specs.Ports.{IsQuiet, IsStepAt};

use crate::begin::{
    begin_characters, begin_element, begin_object, begin_slot, clear_object, enter,
};
use crate::calls::{call, end_call};
use crate::evaluate::{evaluate, locate, pass_each};
use crate::expression::{
    and_also, apply_binary, apply_unary, choose_by, compound_at, discard, give_it, load_at,
    load_from, member_at, or_else, step_at, store_at, test, use_it,
};
use crate::machine::{Machine, Program};
use crate::nested::{run_items, run_stmt, run_turns};
use crate::part::{begin_elements, drop_each, run_groups};
use crate::statement::{branch, jump, return_it, select};
use crate::stop::Stop;
use crate::streams::{end_program, read_byte, write_byte};
use crate::turns::{again, end_scope, end_switch, turn_if};
use crate::variable::{compound_slot, global_at, load_slot, local_at, step_slot, store_slot};
use c_interp_def::{ExprTask, Flow, Handler, Stage, StmtTask, Task};
use c_type::CType;
use c_typed::{TStmt, UnaryOp};
use cc_io::{Sink, Source};

/// Does one task.
#[inline(always)]
pub(crate) fn step<'a, I: Source, O: Sink>(
    machine: &mut Machine<'a>,
    program: &Program<'a>,
    task: Task<'a>,
    input: &mut I,
    at_end: &mut bool,
    output: &mut O,
) -> Result<(), Stop>
    requires laid { IsLaid program.now.typed.now program.now.layouts.now }
    requires at_end { at_end.old ≡ true → IsAtEnd (I.left input.old) }
    ensures step { IsStepAt program.now.typed.now program.now.bound result machine.old machine.new
        (task_from program.now.typed.now program.now.bound (task_of task.entry) (flow_of machine.old.flow))
        (record { held = O.held output.old; left = I.left input.old; closed = at_end.old })
        (record { held = O.held output.new; left = I.left input.new; closed = at_end.new })
        (Increased (I.faults input.old) (I.faults input.new))
        (Increased (O.faults output.old) (O.faults output.new)) }
    ensures read_faults { I.faults input.old ≤ I.faults input.new }
    ensures write_faults { O.faults output.old ≤ O.faults output.new }
    ensures rest { O.rest output.new ≡ O.rest output.old }
{
    match task {
        Task::OfExpr(t) => match machine.flow {
            Flow::Normal => do_expr(machine, program, t, input, at_end, output),
            _ => Ok(()),
        },
        Task::OfStmt(t) => stmt_unless_jump(machine, program, t),
        Task::Handler(h) => handle(machine, program, h),
    }
}

#[inline(always)]
fn do_expr<'a, I: Source, O: Sink>(
    machine: &mut Machine<'a>,
    program: &Program<'a>,
    task: ExprTask<'a>,
    input: &mut I,
    at_end: &mut bool,
    output: &mut O,
) -> Result<(), Stop>
    requires laid { IsLaid program.now.typed.now program.now.layouts.now }
    requires normal { machine.old.flow ≡ Normal }
    requires at_end { at_end.old ≡ true → IsAtEnd (I.left input.old) }
    ensures step { IsStepAt program.now.typed.now program.now.bound result machine.old machine.new
        (expr_task_run program.now.typed.now program.now.bound (expr_task_of task.entry))
        (record { held = O.held output.old; left = I.left input.old; closed = at_end.old })
        (record { held = O.held output.new; left = I.left input.new; closed = at_end.new })
        (Increased (I.faults input.old) (I.faults input.new))
        (Increased (O.faults output.old) (O.faults output.new)) }
    ensures read_faults { I.faults input.old ≤ I.faults input.new }
    ensures write_faults { O.faults output.old ≤ O.faults output.new }
    ensures rest { O.rest output.new ≡ O.rest output.old }
{
    match task {
        ExprTask::ReadByte => read_byte(machine, input, at_end, output),
        ExprTask::WriteByte => write_byte(machine, output),
        ExprTask::Unary(op, t, u) => do_unary(machine, op, t, u, output),
        _ => do_quiet(machine, program, task),
    }
}

fn do_unary<O: Sink>(
    machine: &mut Machine,
    op: UnaryOp,
    t: &CType,
    u: &CType,
    output: &mut O,
) -> Result<(), Stop>
    requires { machine.old.flow ≡ Normal }
    ensures step { (p : ProgramTree) (n few many : ℕ) (left : Option (List ℕ)) (closed : Bool)
        → (closed ≡ true → IsAtEnd left)
        → IsStepAt p n result machine.old machine.new
        (expr_task_run p n (task.unary op t.now u.now))
        (record { held = O.held output.old; left = left; closed = closed })
        (record { held = O.held output.new; left = left; closed = closed })
        (Increased few many) (Increased (O.faults output.old) (O.faults output.new)) }
    ensures write_faults { O.faults output.old ≤ O.faults output.new }
    ensures rest { O.rest output.new ≡ O.rest output.old }
{
    match op {
        UnaryOp::Put => write_byte(machine, output),
        UnaryOp::Exit => end_program(machine),
        _ => apply_unary(machine, op, t, u),
    }
}

// The tasks of expressions that neither read nor write.
#[inline(always)]
fn do_quiet<'a>(
    machine: &mut Machine<'a>,
    program: &Program<'a>,
    task: ExprTask<'a>,
) -> Result<(), Stop>
    requires laid { IsLaid program.now.typed.now program.now.layouts.now }
    requires normal { machine.old.flow ≡ Normal }
    requires quiet { IsQuiet task }
    ensures { IsStep program.now.typed.now program.now.bound result machine.old machine.new
        (expr_task_run program.now.typed.now program.now.bound (expr_task_of task.entry)) }
{
    match task {
        ExprTask::Evaluate(e) => evaluate(machine, program, e),
        ExprTask::Locate(q) => locate(machine, program, q),
        ExprTask::DropEach(es) => drop_each(machine, es),
        ExprTask::PassEach(es) => pass_each(machine, program, es),
        ExprTask::Give(w) => give_it(machine, w),
        ExprTask::LocalAt(k) => local_at(machine, program, k),
        ExprTask::GlobalAt(k) => global_at(machine, program, k),
        ExprTask::MemberAt(offset) => member_at(machine, offset),
        ExprTask::Discard => discard(machine),
        ExprTask::UseIt => use_it(machine),
        ExprTask::Test(t) => test(machine, t),
        ExprTask::Binary(op, t, u) => apply_binary(machine, op, t, u),
        ExprTask::AndAlso(t, b) => and_also(machine, t, b),
        ExprTask::OrElse(t, b) => or_else(machine, t, b),
        ExprTask::Choose(t, a, b) => choose_by(machine, t, a, b),
        ExprTask::LoadFrom(t) => load_from(machine, t),
        ExprTask::LoadAt(t) => load_at(machine, t),
        ExprTask::StoreAt(t) => store_at(machine, t),
        ExprTask::CompoundAt(op, t, u) => compound_at(machine, op, t, u),
        ExprTask::StepAt(step, t) => step_at(machine, step, t),
        ExprTask::LoadSlot(k, _) => load_slot(machine, k),
        ExprTask::StoreSlot(k, _) => store_slot(machine, k),
        ExprTask::CompoundSlot(k, op, t, u) => compound_slot(machine, k, op, t, u),
        ExprTask::StepSlot(k, step, t) => step_slot(machine, k, step, t),
        ExprTask::EndProgram => end_program(machine),
        ExprTask::Call(f, count) => call(machine, program, f, count),
        ExprTask::ReadByte | ExprTask::WriteByte | ExprTask::Unary(..) => unreachable!(),
    }
}

// A task of a statement, over which a jump passes.
#[inline(always)]
fn stmt_unless_jump<'a>(
    machine: &mut Machine<'a>,
    program: &Program<'a>,
    task: StmtTask<'a>,
) -> Result<(), Stop>
    requires laid { IsLaid program.now.typed.now program.now.layouts.now }
    ensures { IsStep program.now.typed.now program.now.bound result machine.old machine.new
        (task_from program.now.typed.now program.now.bound (of_stmt (stmt_task_of task.entry))
        (flow_of machine.old.flow)) }
{
    match machine.flow {
        Flow::Normal => do_stmt(machine, program, task),
        _ => Ok(()),
    }
}

#[inline(always)]
fn do_stmt<'a>(
    machine: &mut Machine<'a>,
    program: &Program<'a>,
    task: StmtTask<'a>,
) -> Result<(), Stop>
    requires laid { IsLaid program.now.typed.now program.now.layouts.now }
    requires normal { machine.old.flow ≡ Normal }
    ensures { IsStep program.now.typed.now program.now.bound result machine.old machine.new
        (stmt_task_run program.now.typed.now program.now.bound (stmt_task_of task.entry)) }
{
    match task {
        StmtTask::OnStmt(stage, a) => do_stage(machine, program, stage, a),
        StmtTask::RunItems(items) => run_items(machine, program, items),
        StmtTask::RunGroups(groups) => run_groups(machine, groups),
        StmtTask::Break => jump(machine, Flow::Broke),
        StmtTask::Continue => jump(machine, Flow::Continued),
        StmtTask::ReturnNone => jump(machine, Flow::Returned(None)),
        StmtTask::ReturnIt => return_it(machine),
        StmtTask::Enter(variable) => enter(machine, program, variable),
        StmtTask::BeginSlot => begin_slot(machine),
        StmtTask::BeginObject(number, t) => begin_object(machine, program, number, t),
        StmtTask::ClearObject(number) => clear_object(machine, program, number),
        StmtTask::BeginElements(number, elements) => begin_elements(machine, number, elements),
        StmtTask::BeginElement(number, offset, t) => {
            begin_element(machine, program, number, offset, t)
        }
        StmtTask::BeginCharacters(number, offset, characters) => {
            begin_characters(machine, program, number, offset, characters)
        }
    }
}

#[inline(always)]
fn do_stage<'a>(
    machine: &mut Machine<'a>,
    program: &Program<'a>,
    stage: Stage,
    a: &'a TStmt,
) -> Result<(), Stop>
    requires laid { IsLaid program.now.typed.now program.now.layouts.now }
    requires normal { machine.old.flow ≡ Normal }
    ensures { IsStep program.now.typed.now program.now.bound result machine.old machine.new
        (stmt_task_run program.now.typed.now program.now.bound (on_stmt stage a.now)) }
{
    match stage {
        Stage::Run => run_stmt(machine, program, a),
        Stage::Branch => branch(machine, a),
        Stage::Select => select(machine, a),
        Stage::RunTurns(turns) => run_turns(machine, program, turns, a),
        Stage::TurnIf(turns) => turn_if(machine, program, turns, a),
    }
}

// A task that is done also where a jump is on its way.
#[inline(always)]
fn handle<'a>(
    machine: &mut Machine<'a>,
    program: &Program<'a>,
    handler: Handler<'a>,
) -> Result<(), Stop>
    requires laid { IsLaid program.now.typed.now program.now.layouts.now }
    ensures { IsStep program.now.typed.now program.now.bound result machine.old machine.new
        (handler_run program.now.typed.now program.now.bound (handler_of handler.entry)
        (flow_of machine.old.flow)) }
{
    match handler {
        Handler::EndSwitch => end_switch(machine),
        Handler::Again(turns, a) => again(machine, program, turns, a),
        Handler::EndScope(count) => end_scope(machine, count),
        Handler::EndCall => end_call(machine, program),
    }
}
