//! Tasks of variables that hold a value, and addresses of objects.

ghost use Rattle.std.specs.Prelude.{◌≡◌, ◌<◌, ◌^◌, ℕ, Some, slice_get, slice_set};
ghost use Rattle.val_core.specs.Objects.{address_in};
ghost use Rattle.c_type.specs.Trees.{TypeTree};
ghost use Rattle.c_typed.specs.Typed.{ProgramTree};
ghost use Rattle.c_mean.specs.State.{holds};
ghost use Rattle.c_interp_answer.specs.TaskViews.{slots_of};
ghost use Rattle.c_interp_def.specs.Configurations.{variables_of, object_sizes};
ghost use Rattle.c_interp_def.specs.declared.task.Flow.TheVariants.{Normal};
ghost use Rattle.c_interp_def.specs.ExprTasks as task;
ghost use Rattle.c_interp_def.specs.ExprTasks.{expr_task_run};
ghost use Rattle.c_interp_store.specs.Laid.{IsLaid};
ghost use Rattle.c_interp.specs.Steps.{IsStep, set_run, slot_read, slot_address};

use crate::expression::{compounded, incremented, old_of};
use crate::machine::{Machine, Program};
use crate::operands::{give, two};
use crate::stop::Stop;
use c_interp_def::Slot;
use c_interp_store::used;
use c_type::CType;
use c_typed::{CompoundOp, IncDec};
use val_core::Value;

/// The address of an object of a call of this function, whose first block has this number; `Bad`
/// where there is no such object.
pub(crate) fn address_of<'a>(program: &Program<'a>, function: u32, first: u64, number: u32) -> Value
    requires laid { IsLaid program.now.typed.now program.now.layouts.now }
    requires fit { first < 2 ^ 63 }
    ensures { result
        ≡ address_in first
        (object_sizes program.now.typed.now (variables_of program.now.typed.now function))
        number }
{
    program.layouts.object(function, first, number)
}

/// The address of an object of the newest call; `Bad` where there is none of this number.
pub(crate) fn object_at<'a>(machine: &Machine<'a>, program: &Program<'a>, number: u32) -> Value
    requires laid { IsLaid program.now.typed.now program.now.layouts.now }
    ensures { result
        ≡ address_in machine.now.frame.objects.first
        (object_sizes program.now.typed.now
        (variables_of program.now.typed.now machine.now.frame.function)) number }
{
    address_of(
        program,
        machine.frame.function,
        machine.frame.objects.first,
        number,
    )
}

/// The address of a global becomes an operand.
pub(crate) fn global_at<'a>(
    machine: &mut Machine<'a>,
    program: &Program<'a>,
    number: u32,
) -> Result<(), Stop>
    requires laid { IsLaid program.now.typed.now program.now.layouts.now }
    requires normal { machine.old.flow ≡ Normal }
    ensures { (n : ℕ) → IsStep program.now.typed.now n result machine.old machine.new
        (expr_task_run program.now.typed.now n (task.global_at number)) }
{
    give(machine, Some(program.layouts.global(number)))
}

/// The address of the object in scope at a slot becomes an operand.
pub(crate) fn local_at<'a>(
    machine: &mut Machine<'a>,
    program: &Program<'a>,
    slot: u32,
) -> Result<(), Stop>
    requires laid { IsLaid program.now.typed.now program.now.layouts.now }
    requires normal { machine.old.flow ≡ Normal }
    ensures { (n : ℕ) → IsStep program.now.typed.now n result machine.old machine.new
        (expr_task_run program.now.typed.now n (task.local_at slot)) }
{
    let address = slot_address(machine, program, slot);
    give(machine, address)
}

fn slot_address<'a>(machine: &Machine<'a>, program: &Program<'a>, slot: u32) -> Option<Value>
    requires laid { IsLaid program.now.typed.now program.now.layouts.now }
    ensures { result
        ≡ slot_address (address_in machine.now.frame.objects.first
        (object_sizes program.now.typed.now
        (variables_of program.now.typed.now machine.now.frame.function)))
        (slice_get (slots_of machine.now.slots.items) slot) }
{
    match machine.slots.get(slot as usize) {
        Some(Slot::Object(number)) => Some(object_at(machine, program, *number)),
        _ => None,
    }
}

/// The value of the variable at a slot.
pub(crate) fn slot_read(slots: &[Slot], slot: u32) -> Option<Value>
    ensures { result ≡ slot_read (slice_get (slots_of slots.now) slot) }
{
    match slots.get(slot as usize) {
        Some(Slot::Holds(v)) => used(*v),
        _ => None,
    }
}

/// The value of a variable becomes an operand.
pub(crate) fn load_slot(machine: &mut Machine, slot: u32) -> Result<(), Stop>
    requires { machine.old.flow ≡ Normal }
    ensures { (p : ProgramTree) (n : ℕ) (t : TypeTree)
        → IsStep p n result machine.old machine.new (expr_task_run p n (task.load_slot slot t)) }
{
    let value = slot_read(&machine.slots, slot);
    give(machine, value)
}

/// A variable takes a value.
pub(crate) fn set_slot(slots: &mut Vec<Slot>, slot: u32, value: Value)
    ensures { slots_of slots.new.items ≡ slice_set (slots_of slots.old.items) slot (holds value) }
{
    if (slot as usize) < slots.len() {
        slots[slot as usize] = Slot::Holds(value);
    }
}

fn set_value(machine: &mut Machine, slot: u32, v: Value, given: Option<Value>) -> Result<(), Stop>
    requires { machine.old.flow ≡ Normal }
    ensures { (p : ProgramTree) (n : ℕ)
        → IsStep p n result machine.old machine.new (set_run slot (Some v) given) }
{
    set_slot(&mut machine.slots, slot, v);
    machine.operands.push(given.unwrap_or(v))?;
    Ok(())
}

// A variable takes a value, where there is one, and that becomes an operand, or the other value
// that is given.
fn set(machine: &mut Machine, slot: u32, v: Option<Value>, given: Option<Value>) -> Result<(), Stop>
    requires { machine.old.flow ≡ Normal }
    ensures { (p : ProgramTree) (n : ℕ)
        → IsStep p n result machine.old machine.new (set_run slot v given) }
{
    match v {
        Some(v) => set_value(machine, slot, v, given),
        None => Err(Stop::Undefined),
    }
}

/// A value is assigned to a variable.
pub(crate) fn store_slot(machine: &mut Machine, slot: u32) -> Result<(), Stop>
    requires { machine.old.flow ≡ Normal }
    ensures { (p : ProgramTree) (n : ℕ) (t : TypeTree)
        → IsStep p n result machine.old machine.new (expr_task_run p n (task.store_slot slot t)) }
{
    let Some(v) = machine.operands.pop() else {
        return Err(Stop::Undefined);
    };
    set(machine, slot, used(v), None)
}

/// A compound assignment to a variable.
pub(crate) fn compound_slot(
    machine: &mut Machine,
    slot: u32,
    op: CompoundOp,
    t: &CType,
    u: &CType,
) -> Result<(), Stop>
    requires { machine.old.flow ≡ Normal }
    ensures { (p : ProgramTree) (n : ℕ)
        → IsStep p n result machine.old machine.new
        (expr_task_run p n (task.compound_slot slot op t.now u.now)) }
{
    let Some((old, v)) = two(&mut machine.operands) else {
        return Err(Stop::Undefined);
    };
    let w = compounded(&machine.store, op, t, u, old, v);
    set(machine, slot, w, None)
}

/// `++` or `--` of a variable.
pub(crate) fn step_slot(
    machine: &mut Machine,
    slot: u32,
    step: IncDec,
    t: &CType,
) -> Result<(), Stop>
    requires { machine.old.flow ≡ Normal }
    ensures { (p : ProgramTree) (n : ℕ)
        → IsStep p n result machine.old machine.new
        (expr_task_run p n (task.step_slot slot step t.now)) }
{
    let Some(old) = machine.operands.pop() else {
        return Err(Stop::Undefined);
    };
    let w = incremented(&machine.store, step, t, old);
    set(machine, slot, w, old_of(step, old))
}
