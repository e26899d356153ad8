//! The command `build`.

ghost use Rattle.std.specs.Prelude.{◌≡◌, ◌≢◌, ◌<◌, ◌≤◌, ◌+◌, ◌⊎◌, take, option_map, IfOk, IfErr};
ghost use Rattle.std.specs.Option.{ForSome};
ghost use Rattle.base.specs.Limits.{most_source_bytes, most_workers};
ghost use Rattle.cc_io.specs.Faults.{Increased};
ghost use Rattle.cc_io.specs.Files.{content};
ghost use Rattle.cc_top.specs.BuildEnds.{BuildEnds, BuildEndsUnder, Finishes};
ghost use Rattle.cc_report.specs.Outcome.{text_of as line_of};
ghost use Rattle.cc_io.specs.Outside.{files_seen};
ghost use Rattle.cc_source.specs.Refused.{CompileFails};
ghost use Rattle.cc_top.specs.Compiled.{WasCompiled};
ghost use Rattle.cc_report.specs.Report.{outcome_of, said_by};
ghost use Rattle.cc_report.specs.declared.outcome.Outcome.TheVariants.{Done};

use crate::compile::compile_by_workers;
use crate::watchers::{has_reporter, report_of, tell_all};
use base::MOST_SOURCE_BYTES;
use board_work::Gate;
use cc_compile::{Compiled, recipe_of};
use cc_io::load::{LoadError, load};
use cc_io::{Files, save};
use cc_report::{Ending, Outcome};
use cc_watch::Watcher;
use g_pass::Recipe;
use g_pass::laws::texts_have_one_recipe;
use s_linear::CodeForm;
use std::alloc::Global;
use std::sync::Wait;
use std::thread::Threads;

/// The text in the file of this name, of which no more is read than a byte over the limit.
fn read_source<F: Files>(alloc: Global, files: &mut F, source: &str) -> Result<Vec<u8>, Outcome>
    ensures bytes { ForSome (F.known files.old) (λ all. IfOk result
        (λ text. text.items ≡ take (most_source_bytes + 1) (content source.now all))) }
    ensures err { IfErr result (λ e. CompileFails source.now e (F.known files.old)
        (Increased (F.open_faults files.old source.now) (F.open_faults files.new source.now)
        ⊎ Increased (F.read_faults files.old) (F.read_faults files.new))) }
    ensures known { F.known files.new ≡ F.known files.old }
    ensures create_faults { F.create_faults files.new ≡ F.create_faults files.old }
    ensures write_faults { F.write_faults files.new ≡ F.write_faults files.old }
    ensures open_faults { F.open_faults files.old source.now ≤ F.open_faults files.new source.now }
    ensures read_faults { F.read_faults files.old ≤ F.read_faults files.new }
{
    match load(alloc, files, source, MOST_SOURCE_BYTES + 1) {
        Ok(text) => Ok(text),
        Err(LoadError::Failed) => Err(Outcome::ReadFault),
        Err(LoadError::NoMemory) => Err(Outcome::NoMemory),
    }
}

/// What the source in the file of this name compiles to under a recipe.
fn compile_file<H: Threads + Wait + Sync, F: Files, G: Gate>(
    rt: &H,
    alloc: Global,
    files: &mut F,
    source: &str,
    recipe: &Recipe,
    form: CodeForm,
    workers: u32,
    gate: &G,
) -> Result<Compiled, Outcome>
    requires some_worker { 0 < workers }
    requires few_workers { workers ≤ most_workers }
    ensures compiled { IfOk result (λ c. WasCompiled recipe.now form source.now (F.known files.old)
        c.image.items c.rows.items) }
    ensures err { IfErr result (λ e. CompileFails source.now e (F.known files.old)
        (Increased (F.open_faults files.old source.now) (F.open_faults files.new source.now)
        ⊎ Increased (F.read_faults files.old) (F.read_faults files.new))) }
    ensures known { F.known files.new ≡ F.known files.old }
    ensures create_faults { F.create_faults files.new ≡ F.create_faults files.old }
    ensures write_faults { F.write_faults files.new ≡ F.write_faults files.old }
    ensures open_faults { F.open_faults files.old source.now ≤ F.open_faults files.new source.now }
    ensures read_faults { F.read_faults files.old ≤ F.read_faults files.new }
{
    let text = match read_source(alloc, files, source) {
        Ok(text) => text,
        Err(outcome) => return Err(outcome),
    };
    compile_by_workers(rt, alloc, &text, recipe, form, workers, gate)
}

/// Tells the rows to the watchers, writes the image to the file of this name, and makes the report.
fn finish<F: Files>(
    alloc: Global,
    files: &mut F,
    image: &str,
    compiled: &Compiled,
    watchers: &mut Vec<Box<dyn Watcher>>,
    report: Option<&str>,
) -> Ending
    ensures ends { let seen = files_seen F.known F.read_faults F.write_faults F.open_faults
        F.create_faults in
        Finishes named stands_for text_of (option_map (λ s. s.now) report.entry)
        image.now compiled.now.image.items compiled.now.rows.items (outcome_of result)
        (said_by result) (seen files.old) (seen files.new)
        watchers.old.items watchers.new.items }
    ensures line { outcome_of result ≢ Done → said_by result ≡ line_of (outcome_of result) }
{
    match tell_all(watchers, &compiled.rows) {
        Ok(()) => match save(files, image, &compiled.image) {
            Ok(()) => match report_of(alloc, watchers, report) {
                Ok(text) => Ending::Report(text),
                Err(_) => Ending::Line(Outcome::NoMemory),
            },
            Err(_) => Ending::Line(Outcome::WriteFault),
        },
        Err(_) => Ending::Line(Outcome::NoMemory),
    }
}

/// Compiles the file named `source` under a recipe to the file named `image`.
fn build_under<H: Threads + Wait + Sync, F: Files, G: Gate>(
    rt: &H,
    alloc: Global,
    files: &mut F,
    source: &str,
    image: &str,
    recipe: &Recipe,
    form: CodeForm,
    workers: u32,
    report: Option<&str>,
    gate: &G,
    watchers: &mut Vec<Box<dyn Watcher>>,
) -> Ending
    requires some_worker { 0 < workers }
    requires few_workers { workers ≤ most_workers }
    ensures ends { let seen = files_seen F.known F.read_faults F.write_faults F.open_faults
        F.create_faults in
        BuildEnds named stands_for text_of recipe.now form
        (option_map (λ s. s.now) report.entry) source.now image.now (outcome_of result)
        (said_by result) (seen files.old) (seen files.new)
        watchers.old.items watchers.new.items }
    ensures line { outcome_of result ≢ Done → said_by result ≡ line_of (outcome_of result) }
{
    match compile_file(rt, alloc, files, source, recipe, form, workers, gate) {
        Ok(compiled) => finish(alloc, files, image, &compiled, watchers, report),
        Err(outcome) => Ending::Line(outcome),
    }
}

/// Compiles the file named `source` under the recipe of this text to the file named `image`, in
/// this form, by 1 to `MOST_WORKERS` workers. The watchers are given the rows, and the text of the one named
/// `report` is said. A text of no recipe is usage, and so is a name that no watcher has; no file is
/// opened then.
#[tactic(auto, using(crate::proofs::BuildLemmas::under_it, crate::proofs::BuildLemmas::under_none, crate::proofs::BuildLemmas::under_nobody))]
pub fn build<H: Threads + Wait + Sync, F: Files, G: Gate>(
    rt: &H,
    alloc: Global,
    files: &mut F,
    source: &str,
    image: &str,
    recipe: &str,
    form: CodeForm,
    workers: u32,
    report: Option<&str>,
    gate: &G,
    watchers: &mut Vec<Box<dyn Watcher>>,
) -> Ending
    requires some_worker { 0 < workers }
    requires few_workers { workers ≤ most_workers }
    ensures { let seen = files_seen F.known F.read_faults F.write_faults F.open_faults
        F.create_faults in
        BuildEndsUnder named stands_for text_of recipe.now form
        (option_map (λ s. s.now) report.entry) source.now image.now (outcome_of result)
        (said_by result) (seen files.old) (seen files.new)
        watchers.old.items watchers.new.items }
{
    texts_have_one_recipe();
    if !has_reporter(watchers, report) {
        return Ending::Line(Outcome::Usage);
    }
    match recipe_of(recipe) {
        Some(recipe) => build_under(
            rt, alloc, files, source, image, &recipe, form, workers, report, gate, watchers,
        ),
        None => Ending::Line(Outcome::Usage),
    }
}
