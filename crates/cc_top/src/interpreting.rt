//! The command `interp`.

ghost use Rattle.std.specs.Prelude.{◌≡◌, ◌≤◌, ◌⊎◌, IfErr, IfOk};
ghost use Rattle.cc_io.specs.Faults.{Increased};
ghost use Rattle.c_typed.specs.WellTyped.{IsWellTyped};
ghost use Rattle.cc_io.specs.Outside.{outside_of, stream_seen};
ghost use Rattle.cc_source.specs.Refused.{CompileFails, IsRejectionOf};
ghost use Rattle.cc_source.specs.Accepted.{Accepts, Refuses};
ghost use Rattle.cc_top.specs.InterpretEnds.{HasProgram, InterpretEnds, RunEnds};
ghost use Rattle.cc_top.specs.RunOutcomes.{outcome_of};

use base::{MOST_SOURCE_BYTES, NoMemory};
use c_interp::Ending;
use c_typed::Typed;
use cc_io::load::{LoadError, load};
use cc_io::{Files, Sink, Source};
use cc_report::Outcome;
use cc_source::{CompileFault, accepted_of, refusal_of};
use std::alloc::Global;

// How the command ends whose run came to this.
fn outcome_of(ended: Result<Ending, NoMemory>) -> Outcome
    ensures { result ≡ outcome_of ended }
{
    match ended {
        Ok(Ending::Exit(status)) => Outcome::Exit(status),
        Ok(Ending::Cut) => Outcome::Cut,
        Ok(Ending::Undefined) => Outcome::Undefined,
        Ok(Ending::ReadFault) => Outcome::ReadFault,
        Ok(Ending::WriteFault) => Outcome::WriteFault,
        Err(_) => Outcome::NoMemory,
    }
}

// How the command ends whose source has this fault.
fn rejection_of(fault: CompileFault, source: &[u8]) -> Outcome
    requires { Refuses fault source.now }
    ensures { IsRejectionOf source.now result }
{
    cc_source::outcome_of(refusal_of(fault, source))
}

// The typed program of a source text that is accepted, or how the command ends that was to run it.
fn typed_of(alloc: Global, source: &[u8]) -> Result<Typed, Outcome>
    ensures accepted { IfOk result (λ p. Accepts source.now p) }
    ensures typed { IfOk result (λ p. IsWellTyped p) }
    ensures err { IfErr result (IsRejectionOf source.now) }
{
    match accepted_of(alloc, source) {
        Ok(typed) => Ok(typed),
        Err(fault) => Err(rejection_of(fault, source)),
    }
}

// The typed program of the source in the file of this name, of which no more is read than a byte
// over the limit.
fn program_of<F: Files>(alloc: Global, files: &mut F, source: &str) -> Result<Typed, Outcome>
    ensures accepted { IfOk result (λ p. HasProgram source.now (F.known files.old) (λ q. q ≡ p)) }
    ensures typed { IfOk result (λ p. IsWellTyped p) }
    ensures err { IfErr result (λ e. CompileFails source.now e (F.known files.old)
        (Increased (F.open_faults files.old source.now) (F.open_faults files.new source.now)
        ⊎ Increased (F.read_faults files.old) (F.read_faults files.new))) }
    ensures known { F.known files.new ≡ F.known files.old }
{
    let text = match load(alloc, files, source, MOST_SOURCE_BYTES + 1) {
        Ok(text) => text,
        Err(LoadError::Failed) => return Err(Outcome::ReadFault),
        Err(LoadError::NoMemory) => return Err(Outcome::NoMemory),
    };
    typed_of(alloc, &text)
}

// Runs the program within the bound, and has the output hand over what was written, which then
// stands before the report.
fn run_program<I: Source, O: Sink>(
    alloc: Global,
    typed: &Typed,
    bound: u64,
    input: &mut I,
    output: &mut O,
) -> Result<Ending, NoMemory>
    requires some { 1 ≤ bound }
    requires most { bound ≤ 1000000 }
    requires typed { IsWellTyped typed.now }
    ensures { RunEnds bound typed.now (outcome_of result)
        (stream_seen I.left I.faults input.old) (stream_seen I.left I.faults input.new)
        (stream_seen O.held O.faults output.old) (stream_seen O.held O.faults output.new) }
{
    let ended = c_interp::interpret(alloc, typed, bound, input, output);
    output.flush();
    ended
}

/// Runs the source in the file of this name within a bound, 1 to 1,000,000: a loop takes at most so
/// many turns, and calls nest at most so deep. The source is read and refused as by `build`; its
/// run takes from the input and writes on the output, and `Exit`, `Cut` and `Undefined` come
/// exactly where the definition of the run gives them. No graph is made, and no file changes.
pub fn interpret<F: Files, I: Source, O: Sink>(
    alloc: Global,
    files: &mut F,
    input: &mut I,
    output: &mut O,
    source: &str,
    bound: u64,
) -> Outcome
    requires some { 1 ≤ bound }
    requires most { bound ≤ 1000000 }
    ensures { let seen = outside_of F.known F.read_faults F.write_faults F.open_faults
        F.create_faults I.left I.faults O.held O.faults in
        InterpretEnds source.now bound result
        (seen files.old input.old output.old) (seen files.new input.new output.new) }
{
    match program_of(alloc, files, source) {
        Ok(typed) => outcome_of(run_program(alloc, &typed, bound, input, output)),
        Err(outcome) => outcome,
    }
}
