//! Rebuilds.

ghost use Rattle.std.specs.Prelude.{◌≡◌, ◌<◌, ◌≤◌, ◌^◌, ℕ, None, Some, length, map, count_by, slice_get, IfOk};
ghost use Rattle.std.specs.Arc.{arc_value};
ghost use Rattle.base.specs.Limits.{most_functions, most_workers};
ghost use Rattle.call_order.specs.Units.{call_lists};
ghost use Rattle.c_typed.specs.WellTyped.{IsWellTyped};
ghost use Rattle.g_graph.specs.Lists.{IsComplete};
ghost use Rattle.g_graph.specs.Plain.{PlainLambda};
ghost use Rattle.g_graph.specs.Program.{lambda_values};
ghost use Rattle.g_build_def.specs.Functions.{omega};
ghost use Rattle.g_build.specs.Passed.{limit_passed};
ghost use Rattle.g_pass_order.specs.Calls.{IsOrder};
ghost use Rattle.g_pass_work.specs.Stale.{AreStale};
ghost use Rattle.cc_session.specs.Session.{lambdas_of, deps_of, IsLast, IsSession};
ghost use Rattle.cc_session.specs.Rebuilds.{AreRemade, IsRebuiltFrom};

use crate::AcceptedSource;
use crate::items::items_since;
use crate::kept::{Kept, answers_of, deps_of, items_of, lambdas_of};
use base::NoMemory;
use board_work::Gate;
use c_typed::Typed;
use cc_compile::file_of_items;
use cc_compile::laws::answers_can_be_emitted;
use cc_source::meaning_laws::programs_can_be_emitted;
use g_build::{BuildFault, build};
use g_graph::{Lambda, Omega};
use g_pass::Recipe;
use g_pass_order::laws::{complete_lists_know_calls, orders_are_unique};
use g_pass_order::{Order, order};
use g_pass_work::laws::unstale_answers_are_kept;
use g_pass_work::{renewed, stale};
use r_rule::Optimised;
use s_linear::CodeForm;
use std::alloc::Global;
use std::sync::{Arc, Wait};
use std::thread::Threads;

/// What a rebuild gives.
#[derive(Drop)]
pub struct Rebuilt {
    /// The bytes of the executable file.
    pub image: Vec<u8>,
    /// How many functions were stale.
    pub jobs: u32,
}

// The lambdas of a program made anew where they are stale: their order, which were stale, and their
// answers.
#[derive(Drop)]
struct Remade {
    order: Order,
    stale: Vec<bool>,
    answers: Vec<Arc<Optimised>>,
}

// How many of these are true.
fn count_of(stale: &[bool]) -> u32
    requires { length stale.now < 2 ^ 32 }
    ensures { result ≡ count_by (λ b. b) stale.now }
{
    let mut count = 0;
    for it in stale {
        if *it {
            count += 1;
        }
    }
    count
}

// The graph of a program that passes no limit of values.
fn graph_of(alloc: Global, typed: &Typed) -> Result<Omega, NoMemory>
    requires typed { IsWellTyped typed.now }
    requires values { limit_passed typed.now.functions ≡ None }
    ensures { IfOk result (λ o. o ≡ omega typed.now) }
{
    match build(alloc, typed) {
        Ok(graph) => Ok(graph),
        Err(BuildFault::NoMemory) => Err(NoMemory),
        Err(BuildFault::Limit(_)) => unreachable!(),
    }
}

// The lambdas of a program.
fn into_lambdas(graph: Omega) -> Vec<Lambda>
    ensures { result.items ≡ graph.lambdas }
{
    graph.lambdas
}

// Which of these lambdas are stale against those that are kept.
fn stale_since(
    alloc: Global,
    last: &Option<Kept>,
    lambdas: &[Lambda],
    order: &Order,
) -> Result<Vec<bool>, NoMemory>
    requires few { length lambdas.now < 2 ^ 32 }
    requires order { IsOrder lambdas.now order.now.ranks.items (call_lists order.now.deps.items) }
    ensures { IfOk result (λ stale. AreStale (lambdas_of last.now) (deps_of last.now)
        lambdas.now (call_lists order.now.deps.items) stale.items) }
{
    stale(alloc, lambdas_of(last), deps_of(last), lambdas, order)
}

// These lambdas, where of earlier ones the answers are kept.
fn remake<H: Threads + Wait + Sync, G: Gate>(
    rt: &H,
    alloc: Global,
    lambdas: &[Lambda],
    recipe: &Recipe,
    last: &Option<Kept>,
    workers: u32,
    gate: &G,
) -> Result<Remade, NoMemory>
    requires few { length lambdas.now ≤ most_functions }
    requires complete { IsComplete lambdas.now }
    requires small { (f : ℕ) (l : PlainLambda)
        → slice_get lambdas.now f ≡ Some l → lambda_values l < 2 ^ 32 }
    requires kept { IsLast recipe.now last.now }
    requires some_worker { 0 < workers }
    requires few_workers { workers ≤ most_workers }
    ensures { IfOk result (λ it. AreRemade recipe.now last.now lambdas.now
        (call_lists it.order.deps.items) it.stale.items (map arc_value it.answers.items)) }
{
    complete_lists_know_calls();
    let order = order(alloc, lambdas)?;
    let stale = stale_since(alloc, last, lambdas, &order)?;
    let kept = answers_of(last);
    let answers = renewed(
        rt, alloc, lambdas, recipe, &order, &stale, kept, workers, gate,
    )?;
    Ok(Remade {
        order,
        stale,
        answers,
    })
}

/// The image of a source, where of an earlier one its answers are kept, and what is kept of this
/// one.
pub(crate) fn rebuild_from<H: Threads + Wait + Sync, G: Gate>(
    rt: &H,
    alloc: Global,
    now: &AcceptedSource,
    recipe: &Recipe,
    form: CodeForm,
    last: &Option<Kept>,
    workers: u32,
    gate: &G,
) -> Result<(Rebuilt, Kept), NoMemory>
    requires session { IsSession now.now recipe.now form last.now }
    requires some_worker { 0 < workers }
    requires few_workers { workers ≤ most_workers }
    ensures { IfOk result (λ it. IsRebuiltFrom
        now.now recipe.now form last.now it.0.image.items it.0.jobs it.1) }
{
    programs_can_be_emitted();
    answers_can_be_emitted();
    orders_are_unique();
    unstale_answers_are_kept();
    let typed = now.typed();
    let graph = graph_of(alloc, typed)?;
    let made = remake(rt, alloc, &graph.lambdas, recipe, last, workers, gate)?;
    let items = items_since(alloc, form, &made.answers, &made.stale, items_of(last))?;
    let image = file_of_items(alloc, &graph, &items)?;
    let source = Vec::from_slice(alloc, now.source())?;
    let own = Vec::from_slice(alloc, &image)?;
    let jobs = count_of(&made.stale);
    let lambdas = into_lambdas(graph);
    let Remade { order, answers, .. } = made;
    Ok((
        Rebuilt { image, jobs },
        Kept {
            source,
            lambdas,
            deps: order.deps,
            answers,
            form,
            items,
            image: own,
        },
    ))
}

/// A rebuild of the source whose image is kept: a copy of the image, and no function is stale.
pub(crate) fn rebuild_again(alloc: Global, image: &[u8]) -> Result<Rebuilt, NoMemory>
    ensures image { IfOk result (λ it. it.image.items ≡ image.now) }
    ensures jobs { IfOk result (λ it. it.jobs ≡ 0) }
{
    let image = Vec::from_slice(alloc, image)?;
    Ok(Rebuilt { image, jobs: 0 })
}
