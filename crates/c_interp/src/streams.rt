//! Tasks that read and write a byte.

ghost use Rattle.std.specs.Prelude.{◌≡◌, ◌≤◌, ◌∷◌, ◌++◌, [], ℕ, Bool, List, Option, None, true, IfOk, OnErr};
ghost use Rattle.val_core.specs.declared.values.Value.{Value as AnyValue};
ghost use Rattle.c_typed.specs.Typed.{ProgramTree};
ghost use Rattle.cc_io.specs.Faults.{HasCause, Increased};
ghost use Rattle.cc_io.specs.Source.{IsAtEnd};
ghost use Rattle.c_interp_def.specs.declared.task.Flow.TheVariants.{Normal};
ghost use Rattle.c_interp_def.specs.ExprTasks as task;
ghost use Rattle.c_interp_def.specs.ExprTasks.{expr_task_run};
ghost use Rattle.c_interp.specs.Steps.{IsStep};
ghost use Rattle.c_interp.specs.Ports.{IsReceived, IsByte, IsStepAt};

use crate::machine::Machine;
use crate::operands::number;
use crate::stop::Stop;
use cc_io::{Failed, Sink, Source};
use val_core::Value;

// The next byte, or `None` at the end of the input, which is asked for once.
fn next_byte<I: Source>(input: &mut I, at_end: &mut bool) -> Result<Option<u8>, Failed>
    requires { at_end.old ≡ true → IsAtEnd (I.left input.old) }
    ensures received { IfOk result (λ taken. IsReceived taken
        (record { held = None; left = I.left input.old; closed = at_end.old })
        (record { held = None; left = I.left input.new; closed = at_end.new })) }
    ensures left { OnErr result (I.left input.new ≡ I.left input.old) }
    ensures cause { HasCause (I.faults input.old) (I.faults input.new) result }
{
    if *at_end {
        return Ok(None);
    }
    let mut buffer = [0];
    if input.read(&mut buffer)? == 0 {
        *at_end = true;
        return Ok(None);
    }
    Ok(Some(buffer[0]))
}

// Hands over what was written, where the input may have to be waited for.
fn hand_over<I: Source, O: Sink>(input: &I, at_end: bool, output: &mut O)
    ensures held { O.held output.new ≡ O.held output.old }
    ensures rest { O.rest output.new ≡ O.rest output.old }
    ensures faults { O.faults output.old ≤ O.faults output.new }
{
    if !at_end && input.may_wait() {
        output.flush();
    }
}

// Another value stands in the place of the newest operand.
fn replace_newest(operands: &mut Vec<Value>, v: Value)
    ensures { (few : List AnyValue) (w : AnyValue) → operands.old.items ≡ few ++ w ∷ [] →
        operands.new.items ≡ few ++ v ∷ [] }
{
    let count = operands.len();
    if count == 0 {
        return;
    }
    operands[count - 1] = v;
}

/// The next byte of the input becomes an operand, or -1 at its end.
pub(crate) fn read_byte<I: Source, O: Sink>(
    machine: &mut Machine,
    input: &mut I,
    at_end: &mut bool,
    output: &mut O,
) -> Result<(), Stop>
    requires normal { machine.old.flow ≡ Normal }
    requires at_end { at_end.old ≡ true → IsAtEnd (I.left input.old) }
    ensures step { (p : ProgramTree) (n : ℕ)
        → IsStepAt p n result machine.old machine.new (expr_task_run p n task.read_byte)
        (record { held = O.held output.old; left = I.left input.old; closed = at_end.old })
        (record { held = O.held output.new; left = I.left input.new; closed = at_end.new })
        (Increased (I.faults input.old) (I.faults input.new))
        (Increased (O.faults output.old) (O.faults output.new)) }
    ensures read_faults { I.faults input.old ≤ I.faults input.new }
    ensures write_faults { O.faults output.old ≤ O.faults output.new }
    ensures rest { O.rest output.new ≡ O.rest output.old }
{
    machine.operands.push(Value::Num(u32::MAX))?;
    hand_over(input, *at_end, output);
    match next_byte(input, at_end) {
        Ok(Some(byte)) => {
            replace_newest(&mut machine.operands, Value::Num(u32::from(byte)));
            Ok(())
        }
        Ok(None) => Ok(()),
        Err(_) => Err(Stop::ReadFault),
    }
}

// The newest operand becomes its last byte.
fn byte_of(operands: &mut Vec<Value>) -> Result<u8, Stop>
    ensures { IsByte result operands.old.items operands.new.items }
{
    let Some(v) = operands.pop() else {
        return Err(Stop::Undefined);
    };
    let Some(w) = number(v) else {
        return Err(Stop::Undefined);
    };
    let byte = (w % 256) as u8;
    operands.push(Value::Num(u32::from(byte)))?;
    Ok(byte)
}

/// The last byte of the newest operand is written.
pub(crate) fn write_byte<O: Sink>(machine: &mut Machine, output: &mut O) -> Result<(), Stop>
    requires { machine.old.flow ≡ Normal }
    ensures step { (p : ProgramTree) (n few many : ℕ) (left : Option (List ℕ)) (closed : Bool)
        → (closed ≡ true → IsAtEnd left)
        → IsStepAt p n result machine.old machine.new (expr_task_run p n task.write_byte)
        (record { held = O.held output.old; left = left; closed = closed })
        (record { held = O.held output.new; left = left; closed = closed })
        (Increased few many) (Increased (O.faults output.old) (O.faults output.new)) }
    ensures write_faults { O.faults output.old ≤ O.faults output.new }
    ensures rest { O.rest output.new ≡ O.rest output.old }
{
    match byte_of(&mut machine.operands) {
        Ok(byte) => match output.write(&[byte]) {
            Ok(_) => Ok(()),
            Err(_) => Err(Stop::WriteFault),
        },
        Err(stop) => Err(stop),
    }
}

/// The program ends with the last byte of the newest operand.
pub(crate) fn end_program(machine: &mut Machine) -> Result<(), Stop>
    requires { machine.old.flow ≡ Normal }
    ensures { (p : ProgramTree) (n : ℕ)
        → IsStep p n result machine.old machine.new (expr_task_run p n task.end_program) }
{
    let Some(v) = machine.operands.pop() else {
        return Err(Stop::Undefined);
    };
    let Some(w) = number(v) else {
        return Err(Stop::Undefined);
    };
    machine.status = (w % 256) as u8;
    Err(Stop::Exit)
}
