//! A session on the source in a file.

ghost use Rattle.std.specs.Prelude.{◌≡◌, ◌⊎◌, IfOk, IfErr};
ghost use Rattle.cc_io.specs.Faults.{Increased};
ghost use Rattle.cc_source.specs.Refused.{CompileFails, IsRejectionOf};
ghost use Rattle.cc_session.specs.Session.{IsAcceptedSource};
ghost use Rattle.cc_top.specs.SessionEnds.{opened};
ghost use Rattle.cc_top.specs.Steps.{IsOpened};

use base::MOST_SOURCE_BYTES;
use cc_io::Files;
use cc_io::load::{LoadError, load};
use cc_report::Outcome;
use cc_session::Session;
use cc_source::{outcome_of, refusal_of};
use g_pass::Recipe;
use s_linear::CodeForm;
use std::alloc::Global;

// A session on a text.
fn session_on(
    alloc: Global,
    text: Vec<u8>,
    recipe: Recipe,
    form: CodeForm,
) -> Result<Session, Outcome>
    ensures opened { IfOk result (λ s. s ≡ opened text.items recipe form) }
    ensures accepted { IfOk result (λ _. IsAcceptedSource text.items) }
    ensures rejected { IfErr result (IsRejectionOf text.items) }
{
    let copy = Vec::from_slice(alloc, &text)?;
    match Session::open(alloc, text, recipe, form) {
        Ok(session) => Ok(session),
        Err(fault) => Err(outcome_of(refusal_of(fault, &copy))),
    }
}

/// A session on the source in the file of this name, of which no more is read than a byte over the
/// limit.
pub(crate) fn open<F: Files>(
    alloc: Global,
    files: &mut F,
    source: &str,
    recipe: Recipe,
    form: CodeForm,
) -> Result<Session, Outcome>
    ensures opened { IfOk result (IsOpened recipe form source.now (F.known files.old)) }
    ensures err { IfErr result (λ e. CompileFails source.now e (F.known files.old)
        (Increased (F.open_faults files.old source.now) (F.open_faults files.new source.now)
        ⊎ Increased (F.read_faults files.old) (F.read_faults files.new))) }
    ensures known { F.known files.new ≡ F.known files.old }
    ensures create_faults { F.create_faults files.new ≡ F.create_faults files.old }
    ensures write_faults { F.write_faults files.new ≡ F.write_faults files.old }
{
    match load(alloc, files, source, MOST_SOURCE_BYTES + 1) {
        Ok(text) => session_on(alloc, text, recipe, form),
        Err(LoadError::Failed) => Err(Outcome::ReadFault),
        Err(LoadError::NoMemory) => Err(Outcome::NoMemory),
    }
}
