//! The answers of a list of lambdas, the stale ones made anew.

ghost use Rattle.std.specs.Prelude.{◌≡◌, ◌≤◌, ◌<◌, ◌^◌, ℕ, Some, length, map, slice_get, IfOk};
ghost use Rattle.std.specs.Arc.{arc_value};
ghost use Rattle.base.specs.Limits.{most_functions, most_workers};
ghost use Rattle.call_order.specs.Units.{call_lists};
ghost use Rattle.board_core.specs.Answers.{IsRanked};
ghost use Rattle.board_core.specs.Alone.{AreResults};
ghost use Rattle.g_graph.specs.Lists.{IsComplete};
ghost use Rattle.g_graph.specs.Plain.{PlainLambda};
ghost use Rattle.g_graph.specs.Program.{lambda_values};
ghost use Rattle.g_pass_order.specs.Calls.{IsOrder};
ghost use Rattle.g_pass_def.specs.Answers.{program, AreAnswers};
ghost use Rattle.g_pass.specs.Sweep.{rules};
ghost use Rattle.g_pass_work.specs.Renewal.{renewal};
ghost use Rattle.g_pass_work.specs.Kept.{AreKept};

use crate::laws::unstale_answers_are_kept;
use crate::stale_jobs::StaleJobs;
use crate::{first_functions, functions_of, merged};
use base::NoMemory;
use board_work::{Gate, do_jobs_by_workers};
use g_graph::Lambda;
use g_pass::Recipe;
use g_pass_def::laws::answers_are_unique;
use g_pass_order::Order;
use g_pass_order::laws::orders_are_unique;
use r_rule::Optimised;
use std::alloc::Global;
use std::sync::{Arc, Wait};
use std::thread::Threads;

// The answers of the stale functions, in order. Where there are none no worker is hired.
fn answers_of_stale<H: Threads + Wait + Sync, G: Gate>(
    rt: &H,
    alloc: Global,
    work: &StaleJobs,
    ranks: &[u32],
    workers: u32,
    gate: &G,
) -> Result<Vec<Arc<Optimised>>, NoMemory>
    requires few { length work.now.stale ≤ most_functions }
    requires all { length work.now.deps ≡ length work.now.stale }
    requires ranked { IsRanked
        (program rules work.now.recipe work.now.lambdas ranks.now work.now.deps workers) }
    requires some_worker { 0 < workers }
    requires few_workers { workers ≤ most_workers }
    ensures { IfOk result (λ given. AreResults (renewal
        (program rules work.now.recipe work.now.lambdas ranks.now work.now.deps workers)
        work.now.stale work.now.kept) (map arc_value given.items)) }
{
    if work.is_done() {
        return Ok(Vec::new(alloc));
    }
    let own_ranks = work.ranks(alloc, ranks)?;
    let own_deps = work.deps(alloc)?;
    do_jobs_by_workers(rt, alloc, work, &own_ranks, &own_deps, workers, gate)
}

/// What a recipe makes of each lambda of a complete list of at most `MOST_FUNCTIONS`, which have
/// fewer than 2^32 values each, in the order of the list, where an earlier list has its answers:
/// those are kept, and only the stale functions are made anew. The order is that of the list; the
/// kept answers are those of the earlier list, by which `stale` says which functions are stale.
///
/// 1 to `MOST_WORKERS` workers make the stale functions, each in a thread of its own where one can
/// be made; a worker passes the gate for each of them, by its number among them, before it makes
/// it. Where no function is stale no worker is hired. `NoMemory` only where the allocator has none.
/// It may wait, and nothing is promised of its returning.
pub fn renewed<H: Threads + Wait + Sync, G: Gate>(
    rt: &H,
    alloc: Global,
    lambdas: &[Lambda],
    recipe: &Recipe,
    order: &Order,
    stale: &[bool],
    kept: &[Arc<Optimised>],
    workers: u32,
    gate: &G,
) -> Result<Vec<Arc<Optimised>>, NoMemory>
    requires few { length lambdas.now ≤ most_functions }
    requires complete { IsComplete lambdas.now }
    requires small { (f : ℕ) (l : PlainLambda)
        → slice_get lambdas.now f ≡ Some l → lambda_values l < 2 ^ 32 }
    requires order { IsOrder lambdas.now order.now.ranks.items (call_lists order.now.deps.items) }
    requires kept { AreKept rules recipe.now
        lambdas.now (call_lists order.now.deps.items) stale.now (map arc_value kept.now) }
    requires some_worker { 0 < workers }
    requires few_workers { workers ≤ most_workers }
    ensures { IfOk result
        (λ all. AreAnswers rules recipe.now lambdas.now (map arc_value all.items)) }
{
    answers_are_unique();
    orders_are_unique();
    unstale_answers_are_kept();
    let functions = functions_of(alloc, stale)?;
    let work = StaleJobs::new(lambdas, recipe, &functions, stale, &order.deps, kept);
    let given = answers_of_stale(rt, alloc, &work, &order.ranks, workers, gate)?;
    let all = first_functions(alloc, stale.len())?;
    merged(alloc, &all, stale, kept, &given)
}
