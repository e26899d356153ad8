//! From a source to the file.

ghost use Rattle.std.specs.Prelude.{◌≡◌, ◌<◌, ◌≤◌, length, IfErr, IfOk};
ghost use Rattle.base.specs.Limits.{most_workers};
ghost use Rattle.c_typed.specs.Typed.{ProgramTree};
ghost use Rattle.cc_source.specs.Accepted.{Accepts, Refuses};
ghost use Rattle.cc_compile.specs.Compiled.{IsCompiledUnder};

use crate::typed::{Compiled, compile_typed, compile_typed_by_workers};
use board_work::Gate;
use cc_source::{CompileFault, typed_of};
use g_pass::Recipe;
use s_linear::CodeForm;
use std::alloc::Global;
use std::sync::Wait;
use std::thread::Threads;

/// Compiles a source text under a recipe to an executable file in this form, on one thread, and tells what the
/// recipe did to each function.
///
/// `Lex`, `Parse`, `Check` and `Build` come exactly where that phase refuses the source, with its
/// fault, and `NoMemory` may come in place of any answer.
pub fn compile_one(
    alloc: Global,
    source: &[u8],
    recipe: &Recipe,
    form: CodeForm,
) -> Result<Compiled, CompileFault>
    ensures accepted { IfOk result (λ c. (p : ProgramTree) × Accepts source.now p
        × IsCompiledUnder recipe.now form p c.image.items c.rows.items
        × (c.functions ≡ length p.functions)) }
    ensures refused { IfErr result (λ e. Refuses e source.now) }
{
    let typed = typed_of(alloc, source)?;
    let compiled = compile_typed(alloc, &typed, recipe, form);
    drop(typed);
    Ok(compiled?)
}

/// Compiles a source text under a recipe to an executable file in this form, whose functions 1 to `MOST_WORKERS`
/// workers make, each worker in a thread of its own where one can be made. A worker passes the gate
/// for each function, by its number, before it makes it.
///
/// The answers are those of `compile_one`, however the steps of the workers interleave. It may
/// wait, and nothing is promised of its returning.
pub fn compile<H: Threads + Wait + Sync, G: Gate>(
    rt: &H,
    alloc: Global,
    source: &[u8],
    recipe: &Recipe,
    form: CodeForm,
    workers: u32,
    gate: &G,
) -> Result<Compiled, CompileFault>
    requires some_worker { 0 < workers }
    requires few_workers { workers ≤ most_workers }
    ensures accepted { IfOk result (λ c. (p : ProgramTree) × Accepts source.now p
        × IsCompiledUnder recipe.now form p c.image.items c.rows.items
        × (c.functions ≡ length p.functions)) }
    ensures refused { IfErr result (λ e. Refuses e source.now) }
{
    let typed = typed_of(alloc, source)?;
    let compiled = compile_typed_by_workers(rt, alloc, &typed, recipe, form, workers, gate);
    drop(typed);
    Ok(compiled?)
}
