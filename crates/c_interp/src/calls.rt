//! Calls that begin and end (ISO/IEC 9899:2011, 6.5.2.2, 6.9.1).

ghost use Rattle.std.specs.Prelude.{◌≡◌, ℕ, true, ◌<◌, ◌^◌, [], Some, List, IfOk, length, slice_get, slice_index_or};
ghost use Rattle.val_core.specs.declared.values.Value.TheVariants.{Bad};
ghost use Rattle.val_core.specs.Memory.{Memory};
ghost use Rattle.val_core.specs.Objects.{address_in};
ghost use Rattle.c_mean.specs.Expressions.{value_or_none};
ghost use Rattle.c_mean.specs.Run.{params_stored, params_in_scope, value_at_end};
ghost use Rattle.c_interp_store.specs.Holding.{Opened, Holds};
ghost use Rattle.c_interp_answer.specs.TaskViews.{slots_of, flow_of};
ghost use Rattle.c_interp_def.specs.CallLaws.{call_tasks};
ghost use Rattle.c_interp_def.specs.Configurations.{variables_of, object_sizes};
ghost use Rattle.c_interp_def.specs.declared.task.Flow.TheVariants.{Normal};
ghost use Rattle.c_interp_def.specs.declared.task.Handler.TheVariants as any_handler;
ghost use Rattle.c_interp_def.specs.declared.task.Task.TheVariants as any_task;
ghost use Rattle.c_interp_def.specs.ExprTasks as task;
ghost use Rattle.c_interp_def.specs.ExprTasks.{expr_task_run};
ghost use Rattle.c_interp_def.specs.StmtTasks as stmt;
ghost use Rattle.c_interp_def.specs.StmtTasks.{handler_run};
ghost use Rattle.c_interp_store.specs.Laid.{IsLaid};
ghost use Rattle.c_interp.specs.Steps.{IsStep, IsStored, tasks_do};
ghost use Rattle.c_interp.specs.Calls.{IsFrame, IsEntered, IsBegunCall, IsEnded};

use crate::frame::{Active, Frame};
use crate::machine::{Machine, Program};
use crate::nested::run_items;
use crate::operands::give;
use crate::stop::Stop;
use crate::variable::address_of;
use base::NoMemory;
use c_interp_def::{Flow, Handler, Slot, Task};
use c_interp_store::{Store, access_width};
use c_typed::{TFunction, Variable};
use std::alloc::Global;
use std::mem::replace;
use val_core::Value;

// So many blocks may be made before the last call begins.
const MOST_BLOCKS: u64 = 0x8000_0000_0000_0000;

/// Calls a function with so many of the newest operands.
pub(crate) fn call<'a>(
    machine: &mut Machine<'a>,
    program: &Program<'a>,
    function: u32,
    count: usize,
) -> Result<(), Stop>
    requires laid { IsLaid program.now.typed.now program.now.layouts.now }
    requires normal { machine.old.flow ≡ Normal }
    ensures { IsStep program.now.typed.now program.now.bound result machine.old machine.new
        (expr_task_run program.now.typed.now program.now.bound (task.call function count)) }
{
    if machine.frame.depth == 0 {
        return Err(Stop::Cut);
    }
    let typed = program.typed;
    let Some(f) = typed.functions.get(function as usize) else {
        return Err(Stop::Undefined);
    };
    match frame_of(machine, program, function, f, count) {
        Ok(active) => begin_call(machine, program, active, f),
        Err(stop) => Err(stop),
    }
}

// The call begins.
fn begin_call<'a>(
    machine: &mut Machine<'a>,
    program: &Program<'a>,
    active: Active,
    f: &'a TFunction,
) -> Result<(), Stop>
    requires laid { IsLaid program.now.typed.now program.now.layouts.now }
    ensures { IsBegunCall program.now.typed.now program.now.bound active f.now machine.old machine.new
        result }
{
    match enter(machine, active) {
        Ok(()) => run_body(machine, program, f),
        Err(stop) => Err(stop),
    }
}

// The body of the function that is called. Where it has ended at once, so does the call.
fn run_body<'a>(
    machine: &mut Machine<'a>,
    program: &Program<'a>,
    f: &'a TFunction,
) -> Result<(), Stop>
    requires laid { IsLaid program.now.typed.now program.now.layouts.now }
    requires normal { machine.old.flow ≡ Normal }
    ensures { IsStep program.now.typed.now program.now.bound result machine.old machine.new
        (tasks_do program.now.typed.now program.now.bound (call_tasks f.now)) }
{
    machine.tasks.push(Task::Handler(Handler::EndCall))?;
    match run_items(machine, program, &f.body) {
        Ok(()) => end_at_once(machine, program),
        Err(stop) => Err(stop),
    }
}

// The newest call ends, where that is the next task.
fn end_at_once<'a>(machine: &mut Machine<'a>, program: &Program<'a>) -> Result<(), Stop>
    requires laid { IsLaid program.now.typed.now program.now.layouts.now }
    ensures { IsEnded program.now.typed.now program.now.bound machine.old machine.new result }
{
    let Some(task) = machine.tasks.last() else {
        return Ok(());
    };
    if !is_end_call(*task) {
        return Ok(());
    }
    machine.tasks.pop();
    end_call(machine, program)
}

fn is_end_call(newest: Task) -> bool
    ensures { result ≡ true → newest.entry ≡ any_task.Handler any_handler.EndCall }
{
    match newest {
        Task::Handler(handler) => is_end(handler),
        _ => false,
    }
}

fn is_end(handler: Handler) -> bool
    ensures { result ≡ true → handler.entry ≡ any_handler.EndCall }
{
    match handler {
        Handler::EndCall => true,
        _ => false,
    }
}

// The frame of a call of this function. Its blocks are opened, and its arguments taken.
fn frame_of<'a>(
    machine: &mut Machine<'a>,
    program: &Program<'a>,
    function: u32,
    f: &'a TFunction,
    count: usize,
) -> Result<Active, Stop>
    requires laid { IsLaid program.now.typed.now program.now.layouts.now }
    requires there { slice_get program.now.typed.now.functions function ≡ Some f.now }
    requires depth { 0 < machine.old.frame.depth }
    ensures { IsFrame program.now.typed.now function count f.now machine.old machine.new result }
{
    let layouts = program.layouts;
    let Some(layout) = layouts.functions.get(function as usize) else {
        return Err(Stop::Undefined);
    };
    let objects = machine.store.open(program.alloc, &layout.shapes)?;
    if objects.first >= MOST_BLOCKS {
        return Err(Stop::NoMemory);
    }
    let first = machine.operands.len().saturating_sub(count);
    let params = (f.params as usize).min(f.variables.len());
    let slots = blank_slots(&mut machine.spare, program.alloc, params)?;
    let taken = take_arguments(
        slots,
        program,
        function,
        objects.first,
        &f.variables[..params],
        &machine.operands[first..],
        &mut machine.store,
    );
    match taken {
        Ok(slots) => {
            machine.operands.truncate(first);
            let depth = machine.frame.depth - 1;
            let frame = Frame {
                function,
                objects,
                depth,
            };
            Ok(Active { frame, slots })
        }
        Err(stop) => Err(stop),
    }
}

// A list without slots, with room for so many: the spare one, where that has it.
fn blank_slots(spare: &mut Vec<Slot>, alloc: Global, count: usize) -> Result<Vec<Slot>, NoMemory>
    ensures { IfOk result (λ slots. slots.items ≡ []) }
{
    if spare.capacity() < count {
        return Ok(Vec::with_capacity(alloc, count)?);
    }
    let mut slots = replace(spare, Vec::new(alloc));
    slots.truncate(0);
    Ok(slots)
}

// The parameters in scope as a call begins, whose blocks are numbered from `first` on. Those that
// are objects are stored.
fn take_arguments<'a>(
    mut slots: Vec<Slot>,
    program: &Program<'a>,
    function: u32,
    first: u64,
    params: &[Variable],
    arguments: &[Value],
    store: &mut Store,
) -> Result<Vec<Slot>, Stop>
    requires laid { IsLaid program.now.typed.now program.now.layouts.now }
    requires fit { first < 2 ^ 63 }
    requires few { length params.now < 2 ^ 32 }
    requires blank { slots.items ≡ [] }
    ensures stored { (calls : List Opened) (m : Memory) → Holds store.old calls m →
        IsStored calls (params_stored (address_in first
        (object_sizes program.now.typed.now (variables_of program.now.typed.now function)))
        0 params.now arguments.now m) store.new result }
    ensures slots { IfOk result (λ slots. slots_of slots.items
        ≡ params_in_scope 0 params.now arguments.now) }
{
    let mut number = 0;
    for i in 0..params.len() {
        let v = argument_at(arguments, i);
        let p = &params[i];
        if p.is_object {
            let at = address_of(program, function, first, number);
            if !store.store(access_width(&p.ty), at, v) {
                return Err(Stop::Undefined);
            }
            slots.push(Slot::Object(number))?;
            number += 1;
        } else {
            slots.push(Slot::Holds(v))?;
        }
    }
    Ok(slots)
}

// An argument; `Bad` where there is none.
fn argument_at(arguments: &[Value], i: usize) -> Value
    ensures { result ≡ slice_index_or arguments.now i Bad }
{
    match arguments.get(i) {
        Some(v) => *v,
        None => Value::Bad,
    }
}

// The machine has the frame of the call, and its caller waits.
fn enter<'a>(machine: &mut Machine<'a>, active: Active) -> Result<(), Stop>
    ensures { IsEntered active machine.old machine.new result }
{
    let frame = replace(&mut machine.frame, active.frame);
    let slots = replace(&mut machine.slots, active.slots);
    machine.callers.push(Active { frame, slots })?;
    machine.flow = Flow::Normal;
    Ok(())
}

// What a function gives as it ends: `main` gives 0 where it does not return.
fn value_at_end(is_main: bool, flow: Flow) -> Value
    ensures { result ≡ value_or_none (value_at_end is_main (flow_of flow)) }
{
    match flow {
        Flow::Returned(Some(v)) => v,
        Flow::Returned(None) => Value::Bad,
        _ if is_main => Value::Num(0),
        _ => Value::Bad,
    }
}

/// The newest call has ended: the caller goes on with its value.
#[inline(always)]
pub(crate) fn end_call<'a>(machine: &mut Machine<'a>, program: &Program<'a>) -> Result<(), Stop>
    requires laid { IsLaid program.now.typed.now program.now.layouts.now }
    ensures { (n : ℕ) → IsStep program.now.typed.now n result machine.old machine.new
        (handler_run program.now.typed.now n stmt.end_call (flow_of machine.old.flow)) }
{
    let typed = program.typed;
    let value = value_at_end(machine.frame.function == typed.main, machine.flow);
    let Some(caller) = machine.callers.pop() else {
        return Err(Stop::Undefined);
    };
    machine.store.close(machine.frame.objects);
    machine.frame = caller.frame;
    let slots = replace(&mut machine.slots, caller.slots);
    machine.spare = slots;
    machine.flow = Flow::Normal;
    give(machine, Some(value))
}
