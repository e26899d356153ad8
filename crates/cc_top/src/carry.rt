//! Commands carried out on a session.

ghost use Rattle.std.specs.Prelude.{◌≡◌, ◌<◌, ◌≤◌, Some, IfOk, IfErr, OnOk, OnErr};
ghost use Rattle.base.specs.Limits.{most_workers};
ghost use Rattle.cc_source.specs.SourceLaws.{AreBytes};
ghost use Rattle.cc_io.specs.Outside.{files_seen};
ghost use Rattle.cc_script_text.specs.declared.command.Command.TheVariants as command;
ghost use Rattle.cc_top.specs.Answers.{held_first, IsAnswered, IsMade};
ghost use Rattle.cc_top.specs.Steps.{answer_of, IsCarriedOut, IsNotCarriedOut, KeepsCounts};

use crate::answer::Answer;
use board_work::Gate;
use cc_io::{Files, save};
use cc_report::Outcome;
use cc_script_text::Command;
use cc_session::{EditFault, Rebuilt, Session};
use cc_source::{outcome_of, refusal_of};
use std::sync::Wait;
use std::thread::Threads;

// What is answered to a `replace` that is refused so.
fn answer_of(fault: EditFault) -> Result<Answer, Outcome>
    ensures { result ≡ answer_of fault }
{
    match fault {
        EditFault::NoFunction => Ok(Answer::NoFunction),
        EditFault::OtherNames => Ok(Answer::OtherNames),
        EditFault::NoMemory => Err(Outcome::NoMemory),
        EditFault::Source { fault, new } => match refusal_of(fault, new.as_slice()) {
            Some(refusal) => Ok(Answer::Refused(refusal)),
            None => Err(Outcome::NoMemory),
        },
    }
}

// Carries out a `replace`.
fn replace(session: &mut Session, name: &[u8], text: &[u8]) -> Result<Answer, Outcome>
    ensures answered { IfOk result (λ answer. IsAnswered (held_first session.old)
        (command.Replace name.now text.now) answer (held_first session.new)) }
    ensures err { IfErr result (λ e. e ≡ Outcome.NoMemory) }
    ensures unchanged { OnErr result (session.new ≡ session.old) }
{
    match session.replace(name, text) {
        Ok(()) => Ok(Answer::Replaced),
        Err(fault) => answer_of(fault),
    }
}

// The elements of a slice of bytes are below 256.
fn are_bytes(source: &[u8])
    ensures { AreBytes source.now }
{
    let _ = source;
}

// The image of the session's source, which does what the source does.
fn image_of<H: Threads + Wait + Sync, G: Gate>(
    rt: &H,
    session: &mut Session,
    workers: u32,
    gate: &G,
) -> Result<Rebuilt, Outcome>
    requires some_worker { 0 < workers }
    requires few_workers { workers ≤ most_workers }
    ensures made { IfOk result (λ it. IsMade session.old it.image.items it.jobs) }
    ensures last { OnOk result (session.new
        ≡ record session.old { last = Some session.old.source }) }
    ensures err { IfErr result (λ e. e ≡ Outcome.NoMemory) }
    ensures unchanged { OnErr result (session.new ≡ session.old) }
{
    cc_compile::meaning_laws::recipes_keep_meaning();
    are_bytes(session.source());
    Ok(session.rebuild(rt, workers, gate)?)
}

// Carries out a `build`.
fn build<H: Threads + Wait + Sync, F: Files, G: Gate>(
    rt: &H,
    files: &mut F,
    session: &mut Session,
    image: &str,
    workers: u32,
    gate: &G,
) -> Result<Answer, Outcome>
    requires some_worker { 0 < workers }
    requires few_workers { workers ≤ most_workers }
    ensures ok { let seen = files_seen F.known F.read_faults F.write_faults F.open_faults
        F.create_faults in
        IfOk result (λ answer. IsCarriedOut image.now command.Build answer session.old session.new
        (seen files.old) (seen files.new)) }
    ensures err { let seen = files_seen F.known F.read_faults F.write_faults F.open_faults
        F.create_faults in
        IfErr result (λ e. IsNotCarriedOut image.now command.Build e session.old
        (seen files.old) (seen files.new)) }
    ensures kept { let seen = files_seen F.known F.read_faults F.write_faults F.open_faults
        F.create_faults in
        KeepsCounts image.now (seen files.old) (seen files.new) }
{
    let made = image_of(rt, session, workers, gate)?;
    match save(files, image, &made.image) {
        Ok(()) => Ok(Answer::Image { jobs: made.jobs }),
        Err(_) => Err(Outcome::WriteFault),
    }
}

/// Carries out a command that is not `end`. A `build` creates OUT anew.
pub(crate) fn carry_out<H: Threads + Wait + Sync, F: Files, G: Gate>(
    rt: &H,
    files: &mut F,
    session: &mut Session,
    command: &Command,
    image: &str,
    workers: u32,
    gate: &G,
) -> Result<Answer, Outcome>
    requires some_worker { 0 < workers }
    requires few_workers { workers ≤ most_workers }
    ensures ok { let seen = files_seen F.known F.read_faults F.write_faults F.open_faults
        F.create_faults in
        IfOk result (λ answer. IsCarriedOut image.now command.now answer session.old session.new
        (seen files.old) (seen files.new)) }
    ensures err { let seen = files_seen F.known F.read_faults F.write_faults F.open_faults
        F.create_faults in
        IfErr result (λ e. IsNotCarriedOut image.now command.now e session.old
        (seen files.old) (seen files.new)) }
    ensures kept { let seen = files_seen F.known F.read_faults F.write_faults F.open_faults
        F.create_faults in
        KeepsCounts image.now (seen files.old) (seen files.new) }
{
    match command {
        Command::Build => build(rt, files, session, image, workers, gate),
        Command::Replace { name, text } => replace(session, name.as_slice(), text.as_slice()),
        Command::End => Err(Outcome::Done),
    }
}
