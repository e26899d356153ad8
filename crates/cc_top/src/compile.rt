//! What a source compiles to, or how a command ends that was to compile it.

ghost use Rattle.std.specs.Prelude.{◌≡◌, ◌<◌, ◌≤◌, length, IfOk, IfErr};
ghost use Rattle.base.specs.Limits.{most_workers};
ghost use Rattle.c_typed.specs.Typed.{ProgramTree};
ghost use Rattle.cc_source.specs.Accepted.{Accepts, Refuses};
ghost use Rattle.cc_compile.specs.Compiled.{IsCompiledUnder};
ghost use Rattle.cc_top.specs.Compiled.{CompilesTo};
ghost use Rattle.cc_source.specs.Refused.{IsRejectionOf};

use board_work::Gate;
use cc_compile::{Compiled, compile_one};
use cc_report::Outcome;
use cc_source::{CompileFault, outcome_of, refusal_of};
use g_pass::Recipe;
use s_linear::CodeForm;
use std::alloc::Global;
use std::sync::Wait;
use std::thread::Threads;

// What a source compiles to does what it means.
fn does_what_it_means(source: &[u8], recipe: &Recipe, form: CodeForm, compiled: &Compiled)
    requires { (p : ProgramTree) × Accepts source.now p
        × IsCompiledUnder recipe.now form p compiled.now.image.items compiled.now.rows.items
        × (compiled.now.functions ≡ length p.functions) }
    ensures { CompilesTo recipe.now form source.now compiled.now.image.items compiled.now.functions
        compiled.now.rows.items }
{
    cc_compile::meaning_laws::recipes_keep_meaning();
    let _ = source;
    let _ = recipe;
    let _ = form;
    let _ = compiled;
}

// How a command ends whose source has this fault.
fn rejection_of(fault: CompileFault, source: &[u8]) -> Outcome
    requires { Refuses fault source.now }
    ensures { IsRejectionOf source.now result }
{
    outcome_of(refusal_of(fault, source))
}

/// The image of a source text under a recipe, which does what the text means, how many functions it
/// defines, and what the recipe did to each.
pub fn compile(
    alloc: Global,
    source: &[u8],
    recipe: &Recipe,
    form: CodeForm,
) -> Result<Compiled, Outcome>
    ensures accepted { IfOk result
        (λ c. CompilesTo recipe.now form source.now c.image.items c.functions c.rows.items) }
    ensures err { IfErr result (IsRejectionOf source.now) }
{
    match compile_one(alloc, source, recipe, form) {
        Ok(compiled) => {
            does_what_it_means(source, recipe, form, &compiled);
            Ok(compiled)
        }
        Err(fault) => Err(rejection_of(fault, source)),
    }
}

/// The same, whose functions 1 to `MOST_WORKERS` workers make, each of which passes the gate before
/// it makes one.
pub fn compile_by_workers<H: Threads + Wait + Sync, G: Gate>(
    rt: &H,
    alloc: Global,
    source: &[u8],
    recipe: &Recipe,
    form: CodeForm,
    workers: u32,
    gate: &G,
) -> Result<Compiled, Outcome>
    requires some_worker { 0 < workers }
    requires few_workers { workers ≤ most_workers }
    ensures accepted { IfOk result
        (λ c. CompilesTo recipe.now form source.now c.image.items c.functions c.rows.items) }
    ensures err { IfErr result (IsRejectionOf source.now) }
{
    match cc_compile::compile(rt, alloc, source, recipe, form, workers, gate) {
        Ok(compiled) => {
            does_what_it_means(source, recipe, form, &compiled);
            Ok(compiled)
        }
        Err(fault) => Err(rejection_of(fault, source)),
    }
}
