//! The sweeps of a recipe, one by one.

ghost use Rattle.std.specs.Prelude.{◌≡◌, [], map, OnOk, IfOk};
ghost use Rattle.std.specs.Arc.{arc_value};
ghost use Rattle.g_graph.specs.WellFormed.{IsWellFormed};
ghost use Rattle.g_pass_def.specs.Answers.{lambdas_of};
ghost use Rattle.g_pass_def.specs.Sweep.{sweep};
ghost use Rattle.g_pass.specs.Sweep.{rules};
ghost use Rattle.g_pass.specs.Counts.{count_of, counts_of};

use crate::{Recipe, sweep};
use base::NoMemory;
use g_graph::{Lambda, ids, values};
use r_rule::{Optimised, Rule, Step};
use std::alloc::Global;
use std::sync::Arc;

/// What a sweep does to a lambda.
#[derive(Clone, Copy)]
pub struct SweepCount {
    /// The rule that it tries.
    pub rule: Rule,
    /// How many nodes it visits.
    pub visited: usize,
    /// At how many of them the rule applied.
    pub steps: usize,
    /// The values of the lambda before the sweep.
    pub before: u64,
    /// Those after it.
    pub after: u64,
}

fn swept(
    alloc: Global,
    rule: Rule,
    lambda: &mut Lambda,
    callees: &[Arc<Optimised>],
    log: &mut Vec<Step>,
) -> Result<SweepCount, NoMemory>
    requires well_formed { IsWellFormed lambda.old }
    ensures swept { OnOk result (record { lambda = lambda.new; steps = log.new.items } ≡
        sweep rules (lambdas_of (map arc_value callees.now))
        (record { lambda = lambda.old; steps = log.old.items }) rule) }
    ensures count { IfOk result (λ count. count ≡
        count_of rule (record { lambda = lambda.old; steps = log.old.items })
        (record { lambda = lambda.new; steps = log.new.items })) }
    ensures kept { IsWellFormed lambda.new }
{
    let visited = ids(alloc, lambda)?.len();
    let before = values(lambda);
    let start = log.len();
    sweep(alloc, rule, lambda, callees, log)?;
    Ok(SweepCount {
        rule,
        visited,
        steps: log.len().saturating_sub(start),
        before,
        after: values(lambda),
    })
}

/// What each sweep of a recipe does to a lambda. The callees are what functions that it calls were
/// made into. `NoMemory` only where the allocator has none. It takes time as the recipe does.
pub fn sweep_counts(
    alloc: Global,
    lambda: Lambda,
    callees: &[Arc<Optimised>],
    recipe: &Recipe,
) -> Result<Vec<SweepCount>, NoMemory>
    requires { IsWellFormed lambda }
    ensures { IfOk result (λ counts. counts.items ≡
        counts_of rules (lambdas_of (map arc_value callees.now))
        (record { lambda = lambda; steps = [] }) recipe.now) }
{
    let mut lambda = lambda;
    let mut log = Vec::new(alloc);
    let mut counts = Vec::new(alloc);
    for rule in recipe.as_slice() {
        let count = swept(alloc, *rule, &mut lambda, callees, &mut log)?;
        counts.push(count)?;
    }
    Ok(counts)
}
