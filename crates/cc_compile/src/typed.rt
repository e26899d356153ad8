//! From a typed program to the file.

ghost use Rattle.std.specs.Prelude.{◌≡◌, ◌<◌, ◌≤◌, None, length, map, IfOk};
ghost use Rattle.std.specs.Arc.{arc_value};
ghost use Rattle.base.specs.Limits.{most_functions, most_workers};
ghost use Rattle.c_typed.specs.WellTyped.{IsWellTyped};
ghost use Rattle.c_check_def.specs.Limits.{above_limits};
ghost use Rattle.g_build_def.specs.Functions.{omega};
ghost use Rattle.g_build.specs.Answer.{limit_named};
ghost use Rattle.g_build.specs.Passed.{limit_passed};
ghost use Rattle.elf_file.specs.Written.{file_of};
ghost use Rattle.rv_layout.specs.Layout.{item_lists};
ghost use Rattle.cc_emit.specs.Image.{file_of_program, lambdas_of, CanEmit};
ghost use Rattle.cc_emit.specs.Items.{image_of_items, CanEmitItems};
ghost use Rattle.cc_compile.specs.Compiled.{rows_of, IsCompiledUnder};

use crate::laws::answers_can_be_emitted;
use crate::rows::rows_of;
use base::NoMemory;
use board_work::Gate;
use c_typed::Typed;
use cc_emit::{all_items, emit_items};
use cc_source::meaning_laws::{programs_can_be_emitted, unlimited_are_small};
use cc_watch::Row;
use g_build::{BuildFault, build};
use g_graph::Omega;
use g_pass::Recipe;
use g_pass_work::{answers, answers_by_workers};
use r_rule::Optimised;
use rv_layout::Item;
use s_linear::CodeForm;
use std::alloc::Global;
use std::sync::{Arc, Wait};
use std::thread::Threads;

/// What a program is compiled to.
#[derive(Drop)]
pub struct Compiled {
    /// The bytes of the executable file.
    pub image: Vec<u8>,
    /// How many functions the source defines.
    pub functions: u32,
    /// What the recipe did to each function, in source order.
    pub rows: Vec<Row>,
}

/// The file of a program of whose functions these are the items. `NoMemory` only where the allocator
/// has none.
pub fn file_of_items(
    alloc: Global,
    omega: &Omega,
    functions: &[Vec<Item>],
) -> Result<Vec<u8>, NoMemory>
    requires { CanEmitItems omega.now (item_lists functions.now) }
    ensures { IfOk result (λ file.
        file.items ≡ file_of (image_of_items omega.now (item_lists functions.now))) }
{
    let image = emit_items(alloc, functions, omega)?;
    elf_file::write(alloc, &image)
}

// The file of a program, of whose functions a recipe makes these.
fn file_with(
    alloc: Global,
    form: CodeForm,
    omega: &Omega,
    all: &[Arc<Optimised>],
) -> Result<Vec<u8>, NoMemory>
    requires { CanEmit omega.now (lambdas_of (map arc_value all.now)) }
    ensures { IfOk result (λ file.
        file.items ≡ file_of_program form omega.now (lambdas_of (map arc_value all.now))) }
{
    let functions = all_items(alloc, form, all)?;
    file_of_items(alloc, omega, &functions)
}

// What a typed program is compiled to, of whose functions a recipe makes these.
fn compiled_with(
    alloc: Global,
    form: CodeForm,
    typed: &Typed,
    omega: &Omega,
    all: &[Arc<Optimised>],
) -> Result<Compiled, NoMemory>
    requires few { length typed.now.functions ≤ most_functions }
    requires image { CanEmit omega.now (lambdas_of (map arc_value all.now)) }
    ensures compiled { IfOk result (λ c.
        (c.image.items ≡ file_of_program form omega.now (lambdas_of (map arc_value all.now)))
        × (c.rows.items ≡ rows_of typed.now (map arc_value all.now))) }
    ensures functions { IfOk result (λ c. c.functions ≡ length typed.now.functions) }
{
    let image = file_with(alloc, form, omega, all)?;
    let rows = rows_of(alloc, typed, all)?;
    Ok(Compiled {
        image,
        functions: typed.functions.len() as u32,
        rows,
    })
}

// What a typed program, whose graph this is, is compiled to under a recipe, on one thread.
fn compiled_of(
    alloc: Global,
    typed: &Typed,
    program: &Omega,
    recipe: &Recipe,
    form: CodeForm,
) -> Result<Compiled, NoMemory>
    requires graph { program.now ≡ omega typed.now }
    requires typed { IsWellTyped typed.now }
    requires limits { above_limits typed.now ≡ None }
    requires values { limit_passed typed.now.functions ≡ None }
    ensures compiled { IfOk result (λ c.
        IsCompiledUnder recipe.now form typed.now c.image.items c.rows.items) }
    ensures functions { IfOk result (λ c. c.functions ≡ length typed.now.functions) }
{
    unlimited_are_small();
    programs_can_be_emitted();
    answers_can_be_emitted();
    let all = answers(alloc, &program.lambdas, recipe)?;
    compiled_with(alloc, form, typed, program, &all)
}

// The same, where so many workers make the functions.
fn compiled_by_workers<H: Threads + Wait + Sync, G: Gate>(
    rt: &H,
    alloc: Global,
    typed: &Typed,
    program: &Omega,
    recipe: &Recipe,
    form: CodeForm,
    workers: u32,
    gate: &G,
) -> Result<Compiled, NoMemory>
    requires graph { program.now ≡ omega typed.now }
    requires typed { IsWellTyped typed.now }
    requires limits { above_limits typed.now ≡ None }
    requires values { limit_passed typed.now.functions ≡ None }
    requires some_worker { 0 < workers }
    requires few_workers { workers ≤ most_workers }
    ensures compiled { IfOk result (λ c.
        IsCompiledUnder recipe.now form typed.now c.image.items c.rows.items) }
    ensures functions { IfOk result (λ c. c.functions ≡ length typed.now.functions) }
{
    unlimited_are_small();
    programs_can_be_emitted();
    answers_can_be_emitted();
    let all = answers_by_workers(rt, alloc, &program.lambdas, recipe, workers, gate)?;
    compiled_with(alloc, form, typed, program, &all)
}

/// What a well-typed program is compiled to under a recipe, in this form, where the program is within the limits
/// 1 to 4 of programs. `Limit` exactly where its functions pass a limit of values.
pub fn compile_typed(
    alloc: Global,
    typed: &Typed,
    recipe: &Recipe,
    form: CodeForm,
) -> Result<Compiled, BuildFault>
    requires typed { IsWellTyped typed.now }
    requires limits { above_limits typed.now ≡ None }
    ensures compiled { IfOk result (λ c.
        IsCompiledUnder recipe.now form typed.now c.image.items c.rows.items) }
    ensures functions { IfOk result (λ c. c.functions ≡ length typed.now.functions) }
    ensures limit { limit_named result ≡ limit_passed typed.now.functions }
{
    let omega = build(alloc, typed)?;
    Ok(compiled_of(alloc, typed, &omega, recipe, form)?)
}

/// What a well-typed program is compiled to, as `compile_typed` has it, where 1 to `MOST_WORKERS`
/// workers make the functions.
pub(crate) fn compile_typed_by_workers<H: Threads + Wait + Sync, G: Gate>(
    rt: &H,
    alloc: Global,
    typed: &Typed,
    recipe: &Recipe,
    form: CodeForm,
    workers: u32,
    gate: &G,
) -> Result<Compiled, BuildFault>
    requires typed { IsWellTyped typed.now }
    requires limits { above_limits typed.now ≡ None }
    requires some_worker { 0 < workers }
    requires few_workers { workers ≤ most_workers }
    ensures compiled { IfOk result (λ c.
        IsCompiledUnder recipe.now form typed.now c.image.items c.rows.items) }
    ensures functions { IfOk result (λ c. c.functions ≡ length typed.now.functions) }
    ensures limit { limit_named result ≡ limit_passed typed.now.functions }
{
    let omega = build(alloc, typed)?;
    Ok(compiled_by_workers(rt, alloc, typed, &omega, recipe, form, workers, gate)?)
}
