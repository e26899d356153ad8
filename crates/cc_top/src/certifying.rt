//! The command `check`.

ghost use Rattle.std.specs.Prelude.{◌≡◌, ◌+◌, ◌⊎◌, take, IfOk, IfErr};
ghost use Rattle.std.specs.Option.{ForSome};
ghost use Rattle.base.specs.Limits.{most_image_bytes, most_source_bytes};
ghost use Rattle.cc_io.specs.Files.{content};
ghost use Rattle.cc_io.specs.Outside.{files_seen, ReadFails};
ghost use Rattle.cc_source.specs.SourceLaws.{AreBytes};
ghost use Rattle.cc_report.specs.declared.outcome.Outcome.TheVariants.{NoMemory, ReadFault};
ghost use Rattle.log_check.specs.Log.{most_log_bytes};
ghost use Rattle.cc_top.specs.CheckEnds.{outcome_of, CheckEnds, IsJudged};
ghost use Rattle.cc_top.specs.Reads.{OnlyReads, Unread};

use base::{MOST_IMAGE_BYTES, MOST_SOURCE_BYTES};
use cc_io::Files;
use cc_io::load::{LoadError, load};
use cc_report::{LogFault, Outcome};
use cc_source::{outcome_of as outcome_of_refusal, refusal_of};
use log_check::{JudgeFault, judge};
use s_linear::CodeForm;
use std::alloc::Global;

/// How many bytes a log has at most.
const MOST_LOG_BYTES: usize = 2_147_483_648;

// What was read of the three files.
#[derive(Drop)]
struct Texts {
    source: Vec<u8>,
    log: Vec<u8>,
    image: Vec<u8>,
}

// The bytes of the file of this name, of which no more than `limit` are read.
fn bytes_of<F: Files>(
    alloc: Global,
    files: &mut F,
    name: &str,
    limit: usize,
) -> Result<Vec<u8>, Outcome>
    ensures bytes { ForSome (F.known files.old)
        (λ all. IfOk result (λ bytes. bytes.items ≡ take limit (content name.now all))) }
    ensures fault { let seen = files_seen F.known F.read_faults F.write_faults F.open_faults
        F.create_faults in
        IfErr result (λ e. (e ≡ NoMemory)
        ⊎ ((e ≡ ReadFault) × ReadFails name.now (seen files.old) (seen files.new))) }
    ensures kept { let seen = files_seen F.known F.read_faults F.write_faults F.open_faults
        F.create_faults in
        OnlyReads (seen files.old) (seen files.new) }
{
    match load(alloc, files, name, limit) {
        Ok(bytes) => Ok(bytes),
        Err(LoadError::Failed) => Err(Outcome::ReadFault),
        Err(LoadError::NoMemory) => Err(Outcome::NoMemory),
    }
}

// What is read of the source, the log and the image, in this order: one byte over the limit of each
// at most.
fn texts_of<F: Files>(
    alloc: Global,
    files: &mut F,
    source: &str,
    log: &str,
    image: &str,
) -> Result<Texts, Outcome>
    ensures source { ForSome (F.known files.old) (λ all. IfOk result (λ read.
        read.source.items ≡ take (most_source_bytes + 1) (content source.now all))) }
    ensures log { ForSome (F.known files.old) (λ all. IfOk result (λ read.
        read.log.items ≡ take (most_log_bytes + 1) (content log.now all))) }
    ensures image { ForSome (F.known files.old) (λ all. IfOk result (λ read.
        read.image.items ≡ take (most_image_bytes + 1) (content image.now all))) }
    ensures fault { let seen = files_seen F.known F.read_faults F.write_faults F.open_faults
        F.create_faults in
        IfErr result (λ e. Unread source.now log.now image.now e
        (seen files.old) (seen files.new)) }
    ensures kept { F.known files.new ≡ F.known files.old }
{
    let source = bytes_of(alloc, files, source, MOST_SOURCE_BYTES + 1)?;
    let log = bytes_of(alloc, files, log, MOST_LOG_BYTES + 1)?;
    let image = bytes_of(alloc, files, image, MOST_IMAGE_BYTES + 1)?;
    Ok(Texts { source, log, image })
}

fn outcome_of(fault: JudgeFault, source: &[u8]) -> Outcome
    ensures { result ≡ outcome_of fault source.now }
{
    let (kind, place) = match fault {
        JudgeFault::Source(fault) => return outcome_of_refusal(refusal_of(fault, source)),
        JudgeFault::LongLog => (LogFault::LongLog, 1),
        JudgeFault::BadLine { line } => (LogFault::BadLine, line),
        JudgeFault::BadFunction { line } => (LogFault::BadFunction, line),
        JudgeFault::BadCount { line } => (LogFault::BadCount, line),
        JudgeFault::BadStep { line } => (LogFault::BadStep, line),
        JudgeFault::OtherImage { byte } => (LogFault::OtherImage, byte),
        JudgeFault::NoMemory => return Outcome::NoMemory,
    };
    Outcome::NotCertified { kind, place }
}

// What is judged of a source, a log and an image.
fn judged(alloc: Global, form: CodeForm, source: &[u8], log: &[u8], image: &[u8]) -> Outcome
    ensures judged { IsJudged result form source.now log.now image.now }
    ensures bytes { AreBytes source.now }
{
    match judge(alloc, form, source, log, image) {
        Ok(()) => Outcome::Certified,
        Err(fault) => outcome_of(fault, source),
    }
}

/// Whether the log in the file of this name certifies the image in that one as an image of the
/// source in this form, whoever wrote them: `Certified`, or `NotCertified` with the first fault. The files are
/// read in this order before anything is judged, and of each one byte over its limit at most.
pub fn check<F: Files>(
    alloc: Global,
    files: &mut F,
    source: &str,
    log: &str,
    image: &str,
    form: CodeForm,
) -> Outcome
    ensures { let seen = files_seen F.known F.read_faults F.write_faults F.open_faults
        F.create_faults in
        CheckEnds source.now log.now image.now form result (seen files.old) (seen files.new) }
{
    log_check::judge_laws::images_are_short();
    let read = match texts_of(alloc, files, source, log, image) {
        Ok(read) => read,
        Err(outcome) => return outcome,
    };
    let ended = judged(alloc, form, &read.source, &read.log, &read.image);
    drop(read);
    ended
}
