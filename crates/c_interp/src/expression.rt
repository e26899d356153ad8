//! Tasks of operators, on the newest operands (ISO/IEC 9899:2011, 6.5).

ghost use Rattle.std.specs.Prelude.{◌≡◌, ℕ, true, List, option_map};
ghost use Rattle.val_core.specs.declared.values.Value.TheVariants.{Num};
ghost use Rattle.val_core.specs.Memory.{Memory};
ghost use Rattle.c_typed.specs.Typed.{ProgramTree};
ghost use Rattle.c_mean.specs.State.{State};
ghost use Rattle.c_mean.specs.Expressions.{compound_done, stepped};
ghost use Rattle.c_interp_store.specs.Holding.{Opened, Holds};
ghost use Rattle.c_interp_store.specs.Operators.{is_pure};
ghost use Rattle.c_interp_def.specs.declared.task.Flow.TheVariants.{Normal};
ghost use Rattle.c_interp_def.specs.ExprTasks as task;
ghost use Rattle.c_interp_def.specs.ExprTasks.{expr_task_run};
ghost use Rattle.c_interp.specs.Steps.{IsStep, tested_run, bit_of, loaded_value, converted_value, old_of};

use crate::machine::Machine;
use crate::operands::{give, give_value, three, two, write};
use crate::push::{choose, put2};
use crate::stop::Stop;
use c_interp_def::{ExprTask, Task};
use c_interp_store::{
    Store, access_width, binary, compound, converted, extended, member_address, stepped, truth,
    unary, used,
};
use c_type::CType;
use c_typed::{BinaryOp, CompoundOp, IncDec, TExpr, UnaryOp};
use val_core::Value;

/// A number becomes an operand.
pub(crate) fn give_it(machine: &mut Machine, w: u32) -> Result<(), Stop>
    requires { machine.old.flow ≡ Normal }
    ensures { (p : ProgramTree) (n : ℕ)
        → IsStep p n result machine.old machine.new (expr_task_run p n (task.give (Num w))) }
{
    give_value(machine, Value::Num(w))
}

/// The newest operand, an address, becomes that of a member of the object there.
pub(crate) fn member_at(machine: &mut Machine, offset: u32) -> Result<(), Stop>
    requires { machine.old.flow ≡ Normal }
    ensures { (p : ProgramTree) (n : ℕ)
        → IsStep p n result machine.old machine.new (expr_task_run p n (task.member_at offset)) }
{
    let Some(a) = machine.operands.pop() else {
        return Err(Stop::Undefined);
    };
    let to = member_address(&machine.store, a, offset);
    give(machine, to)
}

/// The newest operand is dropped.
pub(crate) fn discard(machine: &mut Machine) -> Result<(), Stop>
    requires { machine.old.flow ≡ Normal }
    ensures { (p : ProgramTree) (n : ℕ)
        → IsStep p n result machine.old machine.new (expr_task_run p n task.discard) }
{
    let Some(_) = machine.operands.pop() else {
        return Err(Stop::Undefined);
    };
    Ok(())
}

/// The newest operand has to be a value.
pub(crate) fn use_it(machine: &mut Machine) -> Result<(), Stop>
    requires { machine.old.flow ≡ Normal }
    ensures { (p : ProgramTree) (n : ℕ)
        → IsStep p n result machine.old machine.new (expr_task_run p n task.use_it) }
{
    let Some(v) = machine.operands.pop() else {
        return Err(Stop::Undefined);
    };
    give(machine, used(v))
}

// 1 or 0, where it is known which.
fn bit_of(d: Option<bool>) -> Option<Value>
    ensures { result ≡ option_map bit_of d }
{
    match d {
        Some(d) => Some(Value::Num(u32::from(d))),
        None => None,
    }
}

/// 1 or 0 by the truth of the newest operand.
pub(crate) fn test(machine: &mut Machine, t: &CType) -> Result<(), Stop>
    requires { machine.old.flow ≡ Normal }
    ensures { (p : ProgramTree) (n : ℕ)
        → IsStep p n result machine.old machine.new (expr_task_run p n (task.test t.now)) }
{
    let Some(v) = machine.operands.pop() else {
        return Err(Stop::Undefined);
    };
    give(machine, bit_of(truth(t, v)))
}

/// A unary operator that neither writes a byte nor ends the program.
pub(crate) fn apply_unary(
    machine: &mut Machine,
    op: UnaryOp,
    t: &CType,
    u: &CType,
) -> Result<(), Stop>
    requires normal { machine.old.flow ≡ Normal }
    requires pure { is_pure op ≡ true }
    ensures { (p : ProgramTree) (n : ℕ)
        → IsStep p n result machine.old machine.new (expr_task_run p n (task.unary op t.now u.now)) }
{
    let Some(v) = machine.operands.pop() else {
        return Err(Stop::Undefined);
    };
    give(machine, unary(op, t, u, v))
}

/// A binary operator.
pub(crate) fn apply_binary(
    machine: &mut Machine,
    op: BinaryOp,
    t: &CType,
    u: &CType,
) -> Result<(), Stop>
    requires { machine.old.flow ≡ Normal }
    ensures { (p : ProgramTree) (n : ℕ)
        → IsStep p n result machine.old machine.new
        (expr_task_run p n (task.binary op t.now u.now)) }
{
    let Some((a, b)) = two(&mut machine.operands) else {
        return Err(Stop::Undefined);
    };
    let made = binary(&machine.store, op, t, u, a, b);
    give(machine, made)
}

/// `&&` with its left operand: the right one is tested where that is true.
pub(crate) fn and_also<'a>(machine: &mut Machine<'a>, t: &CType, b: &'a TExpr) -> Result<(), Stop>
    requires { machine.old.flow ≡ Normal }
    ensures { (p : ProgramTree) (n : ℕ)
        → IsStep p n result machine.old machine.new (expr_task_run p n (task.and_also t.now b.now)) }
{
    let Some(v) = machine.operands.pop() else {
        return Err(Stop::Undefined);
    };
    match truth(t, v) {
        Some(true) => tested(machine, b),
        Some(false) => give(machine, Some(Value::Num(0))),
        None => Err(Stop::Undefined),
    }
}

/// `||` with its left operand: the right one is tested where that is false.
pub(crate) fn or_else<'a>(machine: &mut Machine<'a>, t: &CType, b: &'a TExpr) -> Result<(), Stop>
    requires { machine.old.flow ≡ Normal }
    ensures { (p : ProgramTree) (n : ℕ)
        → IsStep p n result machine.old machine.new (expr_task_run p n (task.or_else t.now b.now)) }
{
    let Some(v) = machine.operands.pop() else {
        return Err(Stop::Undefined);
    };
    match truth(t, v) {
        Some(true) => give(machine, Some(Value::Num(1))),
        Some(false) => tested(machine, b),
        None => Err(Stop::Undefined),
    }
}

// An expression is evaluated, and its truth becomes an operand.
fn tested<'a>(machine: &mut Machine<'a>, b: &'a TExpr) -> Result<(), Stop>
    requires { machine.old.flow ≡ Normal }
    ensures { (p : ProgramTree) (n : ℕ)
        → IsStep p n result machine.old machine.new (tested_run p n b.now) }
{
    put2(
        machine,
        Task::OfExpr(ExprTask::Test(&b.ty)),
        Task::OfExpr(ExprTask::Evaluate(b)),
    )
}

/// `?:` with its condition.
pub(crate) fn choose_by<'a>(
    machine: &mut Machine<'a>,
    t: &CType,
    a: &'a TExpr,
    b: &'a TExpr,
) -> Result<(), Stop>
    requires { machine.old.flow ≡ Normal }
    ensures { (p : ProgramTree) (n : ℕ)
        → IsStep p n result machine.old machine.new
        (expr_task_run p n (task.choose t.now a.now b.now)) }
{
    let Some(v) = machine.operands.pop() else {
        return Err(Stop::Undefined);
    };
    choose(
        machine,
        truth(t, v),
        Task::OfExpr(ExprTask::Evaluate(a)),
        Task::OfExpr(ExprTask::Evaluate(b)),
    )
}

/// What is read at an address.
pub(crate) fn loaded(store: &Store, t: &CType, at: Value) -> Option<Value>
    ensures { (calls : List Opened) (m : Memory) → Holds store.now calls m →
        result ≡ loaded_value t.now at m }
{
    match store.load(access_width(t), at) {
        Some(v) => used(extended(t, v)),
        None => None,
    }
}

/// The object at an address is read, and the address dropped.
pub(crate) fn load_from(machine: &mut Machine, t: &CType) -> Result<(), Stop>
    requires { machine.old.flow ≡ Normal }
    ensures { (p : ProgramTree) (n : ℕ)
        → IsStep p n result machine.old machine.new (expr_task_run p n (task.load_from t.now)) }
{
    let Some(a) = machine.operands.pop() else {
        return Err(Stop::Undefined);
    };
    let v = loaded(&machine.store, t, a);
    give(machine, v)
}

/// The object at an address is read, and the address stays.
pub(crate) fn load_at(machine: &mut Machine, t: &CType) -> Result<(), Stop>
    requires { machine.old.flow ≡ Normal }
    ensures { (p : ProgramTree) (n : ℕ)
        → IsStep p n result machine.old machine.new (expr_task_run p n (task.load_at t.now)) }
{
    let Some(a) = machine.operands.pop() else {
        return Err(Stop::Undefined);
    };
    machine.operands.push(a)?;
    let v = loaded(&machine.store, t, a);
    give(machine, v)
}

/// A value is stored at an address, and becomes an operand.
pub(crate) fn store_at(machine: &mut Machine, t: &CType) -> Result<(), Stop>
    requires { machine.old.flow ≡ Normal }
    ensures { (p : ProgramTree) (n : ℕ)
        → IsStep p n result machine.old machine.new (expr_task_run p n (task.store_at t.now)) }
{
    let Some((a, v)) = two(&mut machine.operands) else {
        return Err(Stop::Undefined);
    };
    write(machine, t, a, used(v), None)
}

/// What a compound assignment writes.
pub(crate) fn compounded(
    store: &Store,
    op: CompoundOp,
    t: &CType,
    u: &CType,
    old: Value,
    v: Value,
) -> Option<Value>
    ensures { (calls : List Opened) (s : State) → Holds store.now calls s.memory →
        result ≡ converted_value t.now (compound_done op u.now old v s) }
{
    match compound(store, op, u, old, v) {
        Some(w) => used(converted(t, w)),
        None => None,
    }
}

/// A compound assignment to the object at an address.
pub(crate) fn compound_at(
    machine: &mut Machine,
    op: CompoundOp,
    t: &CType,
    u: &CType,
) -> Result<(), Stop>
    requires { machine.old.flow ≡ Normal }
    ensures { (p : ProgramTree) (n : ℕ)
        → IsStep p n result machine.old machine.new
        (expr_task_run p n (task.compound_at op t.now u.now)) }
{
    let Some((a, old, v)) = three(&mut machine.operands) else {
        return Err(Stop::Undefined);
    };
    let w = compounded(&machine.store, op, t, u, old, v);
    write(machine, t, a, w, None)
}

/// What `++` or `--` writes.
pub(crate) fn incremented(store: &Store, step: IncDec, t: &CType, old: Value) -> Option<Value>
    ensures { (calls : List Opened) (s : State) → Holds store.now calls s.memory →
        result ≡ converted_value t.now (stepped step t.now old s) }
{
    match stepped(store, step, t, old) {
        Some(w) => used(converted(t, w)),
        None => None,
    }
}

/// What `++` or `--` gives, where it is not the value that it writes.
pub(crate) fn old_of(step: IncDec, old: Value) -> Option<Value>
    ensures { result ≡ old_of step old }
{
    if step.gives_old { Some(old) } else { None }
}

/// `++` or `--` of the object at an address.
pub(crate) fn step_at(machine: &mut Machine, step: IncDec, t: &CType) -> Result<(), Stop>
    requires { machine.old.flow ≡ Normal }
    ensures { (p : ProgramTree) (n : ℕ)
        → IsStep p n result machine.old machine.new (expr_task_run p n (task.step_at step t.now)) }
{
    let Some((a, old)) = two(&mut machine.operands) else {
        return Err(Stop::Undefined);
    };
    let w = incremented(&machine.store, step, t, old);
    write(machine, t, a, w, old_of(step, old))
}
