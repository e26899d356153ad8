//! The command `session`.

ghost use Rattle.std.specs.Prelude.{◌<◌, ◌≤◌};
ghost use Rattle.base.specs.Limits.{most_workers};
ghost use Rattle.cc_io.specs.Outside.{outside_of};
ghost use Rattle.cc_top.specs.SessionEnds.{SessionEnds, SessionEndsUnder};

use crate::open::open;
use crate::play::play;
use board_work::Gate;
use cc_compile::recipe_of;
use cc_io::{Files, Sink, Source};
use cc_report::Outcome;
use g_pass::Recipe;
use g_pass::laws::texts_have_one_recipe;
use s_linear::CodeForm;
use std::alloc::Global;
use std::sync::Wait;
use std::thread::Threads;

// The session on the file named `source` under a recipe and in a form.
fn session_under<H: Threads + Wait + Sync, F: Files, I: Source, O: Sink, G: Gate>(
    rt: &H,
    alloc: Global,
    files: &mut F,
    input: &mut I,
    output: &mut O,
    source: &str,
    image: &str,
    recipe: Recipe,
    form: CodeForm,
    workers: u32,
    gate: &G,
) -> Outcome
    requires some_worker { 0 < workers }
    requires few_workers { workers ≤ most_workers }
    ensures { let seen = outside_of F.known F.read_faults F.write_faults F.open_faults
        F.create_faults I.left I.faults O.held O.faults in
        SessionEnds recipe form source.now image.now result
        (seen files.old input.old output.old) (seen files.new input.new output.new) }
{
    match open(alloc, files, source, recipe, form) {
        Ok(mut session) => play(
            rt,
            alloc,
            files,
            input,
            output,
            &mut session,
            image,
            workers,
            gate,
        ),
        Err(outcome) => outcome,
    }
}

/// Opens a session on the source in the file named `source` under the recipe of this text, in a
/// form of code, and answers the commands of the script on the input, each by a line on the output, which is handed
/// over at once. Each `build` creates the file named `image` anew, before its line, with the image
/// of the session's source; 1 to `MOST_WORKERS` workers make it, each of which passes the gate
/// before it makes a function. A text of no recipe is usage; no file is opened then. Nothing is
/// read of the input before the source is accepted, and then only where the command at hand lacks
/// bytes.
#[tactic(auto, using(crate::proofs::Under::under_it, crate::proofs::Under::under_none))]
pub fn session<H: Threads + Wait + Sync, F: Files, I: Source, O: Sink, G: Gate>(
    rt: &H,
    alloc: Global,
    files: &mut F,
    input: &mut I,
    output: &mut O,
    source: &str,
    image: &str,
    recipe: &str,
    form: CodeForm,
    workers: u32,
    gate: &G,
) -> Outcome
    requires some_worker { 0 < workers }
    requires few_workers { workers ≤ most_workers }
    ensures { let seen = outside_of F.known F.read_faults F.write_faults F.open_faults
        F.create_faults I.left I.faults O.held O.faults in
        SessionEndsUnder recipe.now form source.now image.now result
        (seen files.old input.old output.old) (seen files.new input.new output.new) }
{
    texts_have_one_recipe();
    match recipe_of(recipe) {
        Some(recipe) => session_under(
            rt, alloc, files, input, output, source, image, recipe, form, workers, gate,
        ),
        None => Outcome::Usage,
    }
}
