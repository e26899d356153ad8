//! The run of a program.

ghost use Rattle.std.specs.Prelude.{◌≡◌, ◌≤◌, MatchResult, IfOk};
ghost use Rattle.c_typed.specs.WellTyped.{IsWellTyped};
ghost use Rattle.cc_io.specs.Faults.{Increased};
ghost use Rattle.c_interp_store.specs.Laid.{IsLaid};
ghost use Rattle.c_interp.specs.Interpreted.{HasEnded, IsPart};
ghost use Rattle.c_interp.specs.Begun.{HasBegun, HasStopped};
ghost use Rattle.c_interp.specs.declared.stop.Stop.TheVariants as AnyStop;

use crate::frame::Frame;
use crate::machine::{Machine, Program};
use crate::step::step;
use crate::stop::{Ending, Stop};
use base::NoMemory;
use c_interp_def::{ExprTask, Flow, Task};
use c_interp_store::{Objects, first_memory, lay_out};
use c_typed::Typed;
use cc_io::{Sink, Source};
use std::alloc::Global;

/// Runs a program from an input to an output, where a loop takes at most `bound` turns and calls
/// nest at most so deep.
///
/// `Exit`, `Cut` and `Undefined` come exactly where the definition of the run gives them, for the
/// input that is left; the output has then gained what the run writes, and the input lost what it
/// takes. `ReadFault` and `WriteFault` come only where that stream's count of faults increased;
/// after them, and after `NoMemory`, the output has gained a prefix of what the run writes. After
/// 2^64 - 1 steps too `NoMemory` comes.
pub fn interpret<I: Source, O: Sink>(
    alloc: Global,
    typed: &Typed,
    bound: u64,
    input: &mut I,
    output: &mut O,
) -> Result<Ending, NoMemory>
    requires some { 1 ≤ bound }
    requires most { bound ≤ 1000000 }
    requires typed { IsWellTyped typed.now }
    ensures ends { MatchResult result
        (HasEnded bound typed.now
        (record { held = O.held output.old; left = I.left input.old })
        (record { held = O.held output.new; left = I.left input.new })
        (Increased (I.faults input.old) (I.faults input.new))
        (Increased (O.faults output.old) (O.faults output.new)))
        (λ _. IsPart bound typed.now
        (record { held = O.held output.old; left = I.left input.old })
        (record { held = O.held output.new; left = I.left input.new })) }
    ensures read_faults { I.faults input.old ≤ I.faults input.new }
    ensures write_faults { O.faults output.old ≤ O.faults output.new }
    ensures rest { O.rest output.new ≡ O.rest output.old }
{
    let layouts = lay_out(alloc, typed)?;
    let program = Program {
        alloc,
        typed,
        layouts: &layouts,
        bound,
    };
    let mut machine = machine_of(&program)?;
    run(&program, &mut machine, input, output)
}

// The machine as a program begins.
fn machine_of<'a>(program: &Program<'a>) -> Result<Machine<'a>, NoMemory>
    requires laid { IsLaid program.now.typed.now program.now.layouts.now }
    requires typed { IsWellTyped program.now.typed.now }
    requires most { program.now.bound ≤ 1000000 }
    ensures { IfOk result (HasBegun program.now.typed.now program.now.bound) }
{
    let alloc = program.alloc;
    let typed = program.typed;
    let store = first_memory(alloc, typed, program.layouts)?;
    let mut tasks = Vec::new(alloc);
    tasks.push(Task::OfExpr(ExprTask::EndProgram))?;
    tasks.push(Task::OfExpr(ExprTask::Call(typed.main, 0)))?;
    Ok(Machine {
        tasks,
        operands: Vec::new(alloc),
        frame: Frame {
            function: typed.main,
            objects: Objects {
                first: 0,
                count: typed.globals.len() as u64,
            },
            depth: program.bound as u32 + 1,
        },
        slots: Vec::new(alloc),
        callers: Vec::new(alloc),
        flow: Flow::Normal,
        store,
        status: 0,
        spare: Vec::new(alloc),
    })
}

// Does the tasks that are left, and those that they come to.
fn run<'a, I: Source, O: Sink>(
    program: &Program<'a>,
    machine: &mut Machine<'a>,
    input: &mut I,
    output: &mut O,
) -> Result<Ending, NoMemory>
    requires laid { IsLaid program.now.typed.now program.now.layouts.now }
    requires begun { HasBegun program.now.typed.now program.now.bound machine.old }
    ensures ends { MatchResult result
        (HasEnded program.now.bound program.now.typed.now
        (record { held = O.held output.old; left = I.left input.old })
        (record { held = O.held output.new; left = I.left input.new })
        (Increased (I.faults input.old) (I.faults input.new))
        (Increased (O.faults output.old) (O.faults output.new)))
        (λ _. IsPart program.now.bound program.now.typed.now
        (record { held = O.held output.old; left = I.left input.old })
        (record { held = O.held output.new; left = I.left input.new })) }
    ensures read_faults { I.faults input.old ≤ I.faults input.new }
    ensures write_faults { O.faults output.old ≤ O.faults output.new }
    ensures rest { O.rest output.new ≡ O.rest output.old }
{
    let mut at_end = false;
    for _step in 0..u64::MAX {
        let Some(task) = machine.tasks.pop() else {
            return Ok(Ending::Undefined);
        };
        match step(machine, program, task, input, &mut at_end, output) {
            Ok(()) => {}
            Err(stop) => return ending_of(stop, machine.status),
        }
    }
    Err(NoMemory)
}

fn ending_of(stop: Stop, status: u8) -> Result<Ending, NoMemory>
    ensures { MatchResult result (λ e. HasStopped stop status e) (λ _. stop ≡ AnyStop.NoMemory) }
{
    match stop {
        Stop::Exit => Ok(Ending::Exit(status)),
        Stop::Cut => Ok(Ending::Cut),
        Stop::Undefined => Ok(Ending::Undefined),
        Stop::ReadFault => Ok(Ending::ReadFault),
        Stop::WriteFault => Ok(Ending::WriteFault),
        Stop::NoMemory => Err(NoMemory),
    }
}
