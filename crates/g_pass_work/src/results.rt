//! What the lambdas of a list are made into.

ghost use Rattle.std.specs.Prelude.{◌≡◌, ◌≤◌, ◌<◌, ◌^◌, ℕ, Some, length, map, slice_get, IfOk};
ghost use Rattle.std.specs.Arc.{arc_value};
ghost use Rattle.base.specs.Limits.{most_functions, most_workers};
ghost use Rattle.g_graph.specs.Lists.{IsComplete};
ghost use Rattle.g_graph.specs.Plain.{PlainLambda};
ghost use Rattle.g_graph.specs.Program.{lambda_values};
ghost use Rattle.g_pass_def.specs.Answers.{AreAnswers};
ghost use Rattle.g_pass.specs.Sweep.{rules};

use crate::jobs::LambdaJobs;
use base::NoMemory;
use board_core::do_jobs;
use board_work::{Gate, do_jobs_by_workers};
use g_graph::Lambda;
use g_pass::Recipe;
use g_pass_order::laws::{complete_lists_know_calls, orders_are_unique};
use g_pass_order::order;
use r_rule::Optimised;
use std::alloc::Global;
use std::sync::{Arc, Wait};
use std::thread::Threads;

/// What a recipe makes of each lambda of a complete list of at most `MOST_FUNCTIONS`, which have
/// fewer than 2^32 values each, in the order of the list: each is given what the functions of other
/// units that it calls were made into. One worker makes them. `NoMemory` only where the allocator
/// has none.
pub fn answers(
    alloc: Global,
    lambdas: &[Lambda],
    recipe: &Recipe,
) -> Result<Vec<Arc<Optimised>>, NoMemory>
    requires few { length lambdas.now ≤ most_functions }
    requires complete { IsComplete lambdas.now }
    requires small { (f : ℕ) (l : PlainLambda)
        → slice_get lambdas.now f ≡ Some l → lambda_values l < 2 ^ 32 }
    ensures { IfOk result
        (λ all. AreAnswers rules recipe.now lambdas.now (map arc_value all.items)) }
{
    complete_lists_know_calls();
    orders_are_unique();
    let work = LambdaJobs::new(lambdas, recipe);
    let order = order(alloc, lambdas)?;
    do_jobs(alloc, &work, &order.ranks, &order.deps)
}

/// What a recipe makes of each lambda of a complete list, as `answers` has it, made by 1 to
/// `MOST_WORKERS` workers, each in a thread of its own where one can be made. A worker passes the
/// gate for each lambda, by its number, before it makes it. `NoMemory` only where the allocator has
/// none. It may wait, and nothing is promised of its returning.
pub fn answers_by_workers<H: Threads + Wait + Sync, G: Gate>(
    rt: &H,
    alloc: Global,
    lambdas: &[Lambda],
    recipe: &Recipe,
    workers: u32,
    gate: &G,
) -> Result<Vec<Arc<Optimised>>, NoMemory>
    requires few { length lambdas.now ≤ most_functions }
    requires complete { IsComplete lambdas.now }
    requires small { (f : ℕ) (l : PlainLambda)
        → slice_get lambdas.now f ≡ Some l → lambda_values l < 2 ^ 32 }
    requires some_worker { 0 < workers }
    requires few_workers { workers ≤ most_workers }
    ensures { IfOk result
        (λ all. AreAnswers rules recipe.now lambdas.now (map arc_value all.items)) }
{
    complete_lists_know_calls();
    orders_are_unique();
    let work = LambdaJobs::new(lambdas, recipe);
    let order = order(alloc, lambdas)?;
    do_jobs_by_workers(rt, alloc, &work, &order.ranks, &order.deps, workers, gate)
}
