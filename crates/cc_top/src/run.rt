//! The command `run`.

ghost use Rattle.std.specs.Prelude.{◌≡◌, ◌⊎◌, ℕ, List, Ok, Err, IfOk, IfErr};
ghost use Rattle.cc_io.specs.Source.{prepend};
ghost use Rattle.elf_file.specs.Loading.{Executable, loaded};
ghost use Rattle.rv_machine.specs.Memory.{flags_of};
ghost use Rattle.rv_machine.specs.Run.{running, start};
ghost use Rattle.rv_machine.specs.Runs.{IsSomeRun};
ghost use Rattle.rv_machine.specs.Steps.{HasIncreased};
ghost use Rattle.rv_machine.specs.View.{flags_in, hart_of};
ghost use Rattle.cc_io.specs.Outside.{outside_of};
ghost use Rattle.cc_top.specs.RunEnds.{RunEnds};
ghost use Rattle.cc_top.specs.StopOutcomes.{outcome_of};
ghost use Rattle.elf_file.specs.declared.fault.ElfFault.{ElfFault};

use base::MOST_IMAGE_BYTES;
use cc_io::load::{LoadError, load};
use cc_io::{Files, Sink, Source};
use cc_report::Outcome;
use rv_machine::{Machine, Stop};
use std::alloc::Global;

/// The machine of these bytes, at the start of its run.
fn machine_of(alloc: Global, bytes: &[u8]) -> Result<Machine, Outcome>
    ensures ok { IfOk result (λ m. (e : Executable) × (loaded bytes.now ≡ Ok e)
        × (hart_of m ≡ running (start e)) × (flags_in m ≡ flags_of e.segments)) }
    ensures err { IfErr result
        (λ o. (o ≡ Outcome.NoMemory)
        ⊎ ((fault : ElfFault) × (o ≡ Outcome.BadImage fault) × (loaded bytes.now ≡ Err fault))) }
{
    let view = match elf_file::read(bytes) {
        Ok(view) => view,
        Err(fault) => return Err(Outcome::BadImage(fault)),
    };
    match Machine::load(alloc, &view) {
        Ok(machine) => Ok(machine),
        Err(_) => Err(Outcome::NoMemory),
    }
}

fn outcome_of(stop: Stop) -> Outcome
    ensures { result ≡ outcome_of stop }
{
    match stop {
        Stop::Exit(status) => Outcome::Exit(status),
        Stop::Stack => Outcome::Stack,
        Stop::Budget => Outcome::Budget,
        Stop::Stuck { pc, why } => Outcome::Stuck { pc, why },
        Stop::ReadFault => Outcome::ReadFault,
        Stop::WriteFault => Outcome::WriteFault,
    }
}

/// Runs the machine, and has the output hand over what was written, which then stands before the
/// report.
fn run_machine<I: Source, O: Sink>(
    machine: &mut Machine,
    steps: u64,
    input: &mut I,
    output: &mut O,
) -> Stop
    ensures run { IsSomeRun (flags_in machine.old) steps (hart_of machine.old)
        (hart_of machine.new)
        (record { held = O.held output.old; left = I.left input.old })
        (record { held = O.held output.new; left = I.left input.new }) result }
    ensures left { (taken : List ℕ) × (I.left input.old ≡ prepend taken (I.left input.new)) }
    ensures cause { HasIncreased result
        (I.faults input.old) (I.faults input.new) (O.faults output.old) (O.faults output.new) }
{
    let stop = machine.run(steps, input, output);
    output.flush();
    stop
}

/// Runs the image named `image` for at most this many instructions, from the input to the output.
pub fn run<F: Files, I: Source, O: Sink>(
    alloc: Global,
    files: &mut F,
    input: &mut I,
    output: &mut O,
    image: &str,
    steps: u64,
) -> Outcome
    ensures { let seen = outside_of F.known F.read_faults F.write_faults F.open_faults
        F.create_faults I.left I.faults O.held O.faults in
        RunEnds image.now steps result
        (seen files.old input.old output.old) (seen files.new input.new output.new) }
{
    let bytes = match load(alloc, files, image, MOST_IMAGE_BYTES + 1) {
        Ok(bytes) => bytes,
        Err(LoadError::Failed) => return Outcome::ReadFault,
        Err(LoadError::NoMemory) => return Outcome::NoMemory,
    };
    match machine_of(alloc, &bytes) {
        Ok(mut machine) => outcome_of(run_machine(&mut machine, steps, input, output)),
        Err(outcome) => outcome,
    }
}
