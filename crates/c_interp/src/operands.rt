//! Operands that are taken, and values that become operands.

ghost use Rattle.std.specs.Prelude.{◌≡◌, ◌∷◌, ◌++◌, ◌<◌, [], ℕ, Some, IfSome, IfNone, length};
ghost use Rattle.c_typed.specs.Typed.{ProgramTree};
ghost use Rattle.c_interp_def.specs.declared.task.Flow.TheVariants.{Normal};
ghost use Rattle.c_interp.specs.Steps.{IsStep, number, give_run, write_run, store_run};

use crate::machine::Machine;
use crate::stop::Stop;
use c_interp_store::access_width;
use c_type::CType;
use val_core::Value;

/// The two newest operands, the newer one last.
pub(crate) fn two(operands: &mut Vec<Value>) -> Option<(Value, Value)>
    ensures some { IfSome result
        (λ ab. operands.old.items ≡ operands.new.items ++ (ab.0 ∷ ab.1 ∷ [])) }
    ensures none { IfNone result (length operands.old.items < 2) }
{
    let b = operands.pop()?;
    let a = operands.pop()?;
    Some((a, b))
}

/// The three newest operands, the newest one last.
pub(crate) fn three(operands: &mut Vec<Value>) -> Option<(Value, Value, Value)>
    ensures some { IfSome result
        (λ abc. operands.old.items ≡ operands.new.items ++ (abc.0 ∷ abc.1 ∷ abc.2 ∷ [])) }
    ensures none { IfNone result (length operands.old.items < 3) }
{
    let c = operands.pop()?;
    let b = operands.pop()?;
    let a = operands.pop()?;
    Some((a, b, c))
}

/// The number that a value is, where it is one.
pub(crate) fn number(v: Value) -> Option<u32>
    ensures { result ≡ number v }
{
    match v {
        Value::Num(w) => Some(w),
        Value::At { .. } | Value::Bad => None,
    }
}

/// The value becomes an operand.
pub(crate) fn give_value(machine: &mut Machine, v: Value) -> Result<(), Stop>
    requires { machine.old.flow ≡ Normal }
    ensures { (p : ProgramTree) (n : ℕ)
        → IsStep p n result machine.old machine.new (give_run (Some v)) }
{
    machine.operands.push(v)?;
    Ok(())
}

/// The value becomes an operand, where there is one.
pub(crate) fn give(machine: &mut Machine, v: Option<Value>) -> Result<(), Stop>
    requires { machine.old.flow ≡ Normal }
    ensures { (p : ProgramTree) (n : ℕ)
        → IsStep p n result machine.old machine.new (give_run v) }
{
    match v {
        Some(v) => give_value(machine, v),
        None => Err(Stop::Undefined),
    }
}

fn store_value(machine: &mut Machine, t: &CType, at: Value, v: Value) -> Result<(), Stop>
    requires { machine.old.flow ≡ Normal }
    ensures { (p : ProgramTree) (n : ℕ)
        → IsStep p n result machine.old machine.new (store_run t.now at (Some v)) }
{
    if machine.store.store(access_width(t), at, v) {
        Ok(())
    } else {
        Err(Stop::Undefined)
    }
}

/// A value, where there is one, is stored at the address of an object of this type.
pub(crate) fn store(
    machine: &mut Machine,
    t: &CType,
    at: Value,
    v: Option<Value>,
) -> Result<(), Stop>
    requires { machine.old.flow ≡ Normal }
    ensures { (p : ProgramTree) (n : ℕ)
        → IsStep p n result machine.old machine.new (store_run t.now at v) }
{
    match v {
        Some(v) => store_value(machine, t, at, v),
        None => Err(Stop::Undefined),
    }
}

fn write_value(
    machine: &mut Machine,
    t: &CType,
    at: Value,
    v: Value,
    given: Option<Value>,
) -> Result<(), Stop>
    requires { machine.old.flow ≡ Normal }
    ensures { (p : ProgramTree) (n : ℕ)
        → IsStep p n result machine.old machine.new (write_run t.now at (Some v) given) }
{
    if machine.store.store(access_width(t), at, v) {
        give_value(machine, given.unwrap_or(v))
    } else {
        Err(Stop::Undefined)
    }
}

/// A value, where there is one, is stored at the address of an object of this type, and it becomes
/// an operand, or the other value that is given.
pub(crate) fn write(
    machine: &mut Machine,
    t: &CType,
    at: Value,
    v: Option<Value>,
    given: Option<Value>,
) -> Result<(), Stop>
    requires { machine.old.flow ≡ Normal }
    ensures { (p : ProgramTree) (n : ℕ)
        → IsStep p n result machine.old machine.new (write_run t.now at v given) }
{
    match v {
        Some(v) => write_value(machine, t, at, v, given),
        None => Err(Stop::Undefined),
    }
}
