//! Variables that come into scope, and how they begin (ISO/IEC 9899:2011, 6.7.9).

ghost use Rattle.std.specs.Prelude.{◌≡◌, ℕ, List, IfSome, slice_get, option_map};
ghost use Rattle.val_core.specs.Memory.{Memory};
ghost use Rattle.c_typed.specs.Typed.{ProgramTree};
ghost use Rattle.c_mean.specs.State.{bytes_into};
ghost use Rattle.c_mean.specs.Statements.{characters_stored};
ghost use Rattle.c_interp_store.specs.Holding.{Opened, Holds};
ghost use Rattle.c_interp_answer.specs.TaskViews.{slot_of};
ghost use Rattle.c_interp_def.specs.Configurations.{variables_of};
ghost use Rattle.c_interp_def.specs.declared.task.Flow.TheVariants.{Normal};
ghost use Rattle.c_interp_def.specs.StmtTasks as stmt;
ghost use Rattle.c_interp_def.specs.StmtTasks.{stmt_task_run};
ghost use Rattle.c_interp_store.specs.Laid.{IsLaid};
ghost use Rattle.c_interp.specs.Steps.{IsStep, slot_begun, is_value, IsStored};

use crate::machine::{Machine, Program};
use crate::operands::store;
use crate::statement::{numbers, variables};
use crate::stop::Stop;
use crate::variable::object_at;
use base::Bytes;
use c_interp_def::Slot;
use c_interp_store::{Store, used};
use c_type::CType;
use val_core::Value;

// The slot of a variable of a function as it comes into scope.
fn slot_begun<'a>(program: &Program<'a>, function: u32, variable: u32) -> Option<Slot>
    requires laid { IsLaid program.now.typed.now program.now.layouts.now }
    ensures { option_map slot_of result
        ≡ slot_begun (variables_of program.now.typed.now function) variable
        (slice_get (variables_of program.now.typed.now function) variable) }
{
    let numbers = numbers(program, function);
    match variables(program, function).get(variable as usize) {
        Some(v) if v.is_object => Some(Slot::Object(numbers[variable as usize])),
        Some(_) => Some(Slot::Holds(Value::Bad)),
        None => None,
    }
}

/// Whether this is a variable of a function that is no object.
pub(crate) fn is_value<'a>(program: &Program<'a>, function: u32, variable: u32) -> bool
    requires laid { IsLaid program.now.typed.now program.now.layouts.now }
    ensures { result ≡ is_value (slice_get (variables_of program.now.typed.now function) variable) }
{
    match variables(program, function).get(variable as usize) {
        Some(v) => !v.is_object,
        None => false,
    }
}

/// A variable comes into scope.
pub(crate) fn enter<'a>(
    machine: &mut Machine<'a>,
    program: &Program<'a>,
    variable: u32,
) -> Result<(), Stop>
    requires laid { IsLaid program.now.typed.now program.now.layouts.now }
    requires normal { machine.old.flow ≡ Normal }
    ensures { (n : ℕ) → IsStep program.now.typed.now n result machine.old machine.new
        (stmt_task_run program.now.typed.now n (stmt.enter variable)) }
{
    let Some(slot) = slot_begun(program, machine.frame.function, variable) else {
        return Err(Stop::Undefined);
    };
    machine.slots.push(slot)?;
    Ok(())
}

/// The newest variable takes the newest operand.
pub(crate) fn begin_slot(machine: &mut Machine) -> Result<(), Stop>
    requires { machine.old.flow ≡ Normal }
    ensures { (p : ProgramTree) (n : ℕ)
        → IsStep p n result machine.old machine.new (stmt_task_run p n stmt.begin_slot) }
{
    let Some(v) = machine.operands.pop() else {
        return Err(Stop::Undefined);
    };
    let Some(w) = used(v) else {
        return Err(Stop::Undefined);
    };
    machine.slots.pop();
    machine.slots.push(Slot::Holds(w))?;
    Ok(())
}

/// The object of this number takes the newest operand.
pub(crate) fn begin_object<'a>(
    machine: &mut Machine<'a>,
    program: &Program<'a>,
    number: u32,
    t: &CType,
) -> Result<(), Stop>
    requires laid { IsLaid program.now.typed.now program.now.layouts.now }
    requires normal { machine.old.flow ≡ Normal }
    ensures { (n : ℕ) → IsStep program.now.typed.now n result machine.old machine.new
        (stmt_task_run program.now.typed.now n (stmt.begin_object number t.now)) }
{
    let Some(v) = machine.operands.pop() else {
        return Err(Stop::Undefined);
    };
    let at = object_at(machine, program, number);
    store(machine, t, at, used(v))
}

/// The object of this number becomes 0.
pub(crate) fn clear_object<'a>(
    machine: &mut Machine<'a>,
    program: &Program<'a>,
    number: u32,
) -> Result<(), Stop>
    requires laid { IsLaid program.now.typed.now program.now.layouts.now }
    requires normal { machine.old.flow ≡ Normal }
    ensures { (n : ℕ) → IsStep program.now.typed.now n result machine.old machine.new
        (stmt_task_run program.now.typed.now n (stmt.clear_object number)) }
{
    let at = object_at(machine, program, number);
    if machine.store.clear(at) {
        Ok(())
    } else {
        Err(Stop::Undefined)
    }
}

// The address some bytes into an object; `None` where no word holds the offset.
fn bytes_into(at: Value, bytes: u32) -> Option<Value>
    ensures { IfSome result (λ to. to ≡ bytes_into at bytes) }
{
    match at {
        Value::At { block, offset } => match offset.checked_add(bytes) {
            Some(offset) => Some(Value::At { block, offset }),
            None => None,
        },
        _ => Some(at),
    }
}

/// The bytes of the object of this number from an offset on take the newest operand.
pub(crate) fn begin_element<'a>(
    machine: &mut Machine<'a>,
    program: &Program<'a>,
    number: u32,
    offset: u32,
    t: &CType,
) -> Result<(), Stop>
    requires laid { IsLaid program.now.typed.now program.now.layouts.now }
    requires normal { machine.old.flow ≡ Normal }
    ensures { (n : ℕ) → IsStep program.now.typed.now n result machine.old machine.new
        (stmt_task_run program.now.typed.now n (stmt.begin_element number offset t.now)) }
{
    let Some(v) = machine.operands.pop() else {
        return Err(Stop::Undefined);
    };
    let Some(at) = bytes_into(object_at(machine, program, number), offset) else {
        return Err(Stop::NoMemory);
    };
    store(machine, t, at, used(v))
}

// Characters are stored from an offset into an object on. `NoMemory` where no word holds an offset.
fn store_characters(
    store: &mut Store,
    object: Value,
    offset: u32,
    characters: &[u8],
) -> Result<(), Stop>
    ensures { (calls : List Opened) (m : Memory) → Holds store.old calls m →
        IsStored calls (characters_stored object offset characters.now m) store.new result }
{
    let mut at = offset;
    for c in characters {
        let Some(to) = bytes_into(object, at) else {
            return Err(Stop::NoMemory);
        };
        if !store.store(1, to, Value::Num(u32::from(*c))) {
            return Err(Stop::Undefined);
        }
        let Some(next) = at.checked_add(1) else {
            return Err(Stop::NoMemory);
        };
        at = next;
    }
    Ok(())
}

/// Characters begin the object of this number from an offset on.
pub(crate) fn begin_characters<'a>(
    machine: &mut Machine<'a>,
    program: &Program<'a>,
    number: u32,
    offset: u32,
    characters: &'a Bytes,
) -> Result<(), Stop>
    requires laid { IsLaid program.now.typed.now program.now.layouts.now }
    requires normal { machine.old.flow ≡ Normal }
    ensures { (n : ℕ) → IsStep program.now.typed.now n result machine.old machine.new
        (stmt_task_run program.now.typed.now n (stmt.begin_characters number offset characters.now)) }
{
    let object = object_at(machine, program, number);
    store_characters(&mut machine.store, object, offset, characters.as_slice())
}
