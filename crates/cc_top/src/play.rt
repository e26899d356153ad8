//! A script played on a session.

ghost use Rattle.std.specs.Prelude.{◌<◌, ◌≤◌, IfErr, OnOk};
ghost use Rattle.base.specs.Limits.{most_workers};
ghost use Rattle.cc_io.specs.Outside.{outside_of};
ghost use Rattle.cc_script_text.specs.Script.{most_commands};
ghost use Rattle.cc_script_text.specs.Taken.{commands_read, read_ahead};
ghost use Rattle.cc_top.specs.ScriptEnds.{ScriptEnds};
ghost use Rattle.cc_top.specs.Steps.{reading, IsStep, KeepsFaults, StepEnds};

use crate::carry::carry_out;
use crate::next::next;
use crate::say::say;
use board_work::Gate;
use cc_io::laws::put_twice;
use cc_io::{Files, Sink, Source};
use cc_report::Outcome;
use cc_script_text::ScriptReader;
use cc_session::Session;
use std::alloc::Global;
use std::sync::Wait;
use std::thread::Threads;

// Reads, carries out and answers the next command; else how the script ends.
fn step<H: Threads + Wait + Sync, F: Files, I: Source, O: Sink, G: Gate>(
    rt: &H,
    alloc: Global,
    files: &mut F,
    input: &mut I,
    output: &mut O,
    reader: &mut ScriptReader,
    session: &mut Session,
    image: &str,
    workers: u32,
    gate: &G,
) -> Result<(), Outcome>
    requires some_worker { 0 < workers }
    requires few_workers { workers ≤ most_workers }
    requires few { commands_read reader.old ≤ most_commands }
    ensures step { let seen = outside_of F.known F.read_faults F.write_faults F.open_faults
        F.create_faults I.left I.faults O.held O.faults in
        OnOk result (IsStep image.now session.old session.new
        (commands_read reader.old) (commands_read reader.new)
        (reading reader.old (seen files.old input.old output.old))
        (reading reader.new (seen files.new input.new output.new))) }
    ensures ends { let seen = outside_of F.known F.read_faults F.write_faults F.open_faults
        F.create_faults I.left I.faults O.held O.faults in
        IfErr result (λ e. StepEnds image.now e session.old
        (commands_read reader.old) (read_ahead reader.new)
        (reading reader.old (seen files.old input.old output.old))
        (reading reader.new (seen files.new input.new output.new))) }
    ensures kept { let seen = outside_of F.known F.read_faults F.write_faults F.open_faults
        F.create_faults I.left I.faults O.held O.faults in
        KeepsFaults image.now
        (seen files.old input.old output.old) (seen files.new input.new output.new) }
{
    let command = next(alloc, reader, input)?;
    let answer = carry_out(rt, files, session, &command, image, workers, gate);
    drop(command);
    match say(output, answer?) {
        Ok(()) => Ok(()),
        Err(_) => Err(Outcome::WriteFault),
    }
}

/// Answers the commands of the script on the input, one after the other, until it ends.
pub(crate) fn play<H: Threads + Wait + Sync, F: Files, I: Source, O: Sink, G: Gate>(
    rt: &H,
    alloc: Global,
    files: &mut F,
    input: &mut I,
    output: &mut O,
    session: &mut Session,
    image: &str,
    workers: u32,
    gate: &G,
) -> Outcome
    requires some_worker { 0 < workers }
    requires few_workers { workers ≤ most_workers }
    ensures { let seen = outside_of F.known F.read_faults F.write_faults F.open_faults
        F.create_faults I.left I.faults O.held O.faults in
        ScriptEnds session.old image.now result
        (seen files.old input.old output.old) (seen files.new input.new output.new) }
{
    put_twice();
    let mut reader = ScriptReader::new();
    loop {
        if let Err(outcome) = step(
            rt,
            alloc,
            files,
            input,
            output,
            &mut reader,
            session,
            image,
            workers,
            gate,
        ) {
            return outcome;
        }
    }
}
