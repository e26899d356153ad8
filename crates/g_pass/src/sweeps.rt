//! Sweeps, and recipes of them.

ghost use Rattle.std.specs.Prelude.{◌≡◌, ◌<◌, ◌^◌, ℕ, map, take, OnOk, OnErr, IfOk};
ghost use Rattle.std.specs.Arc.{arc_value};
ghost use Rattle.std.specs.List.{fold};
ghost use Rattle.g_graph.specs.Count.{region_values};
ghost use Rattle.g_graph.specs.Ids.{region_ids};
ghost use Rattle.g_graph.specs.WellFormed.{IsWellFormed};
ghost use Rattle.g_pass_def.specs.Answers.{lambdas_of};
ghost use Rattle.g_pass_def.specs.Sweep.{in_order, optimise, sweep, tried};
ghost use Rattle.g_pass.specs.Sweep.{rules};

use crate::Recipe;
use crate::fast::{arena_rules, swept_fast, swept_together};
use crate::rule_step::{is_backward, try_step};
use crate::sites::{Site, Sites, may_apply};
use base::NoMemory;
use g_graph::{Lambda, copy_of, ids, values};
use r_rule::{Optimised, Rule, Step, StepList};
use std::alloc::Global;
use std::sync::Arc;

// The numbers of the lambda's nodes in the order in which a sweep of the rule visits them.
fn numbers(alloc: Global, rule: Rule, lambda: &Lambda) -> Result<Vec<u32>, NoMemory>
    ensures { IfOk result (λ all. all.items ≡ in_order rules rule (region_ids lambda.now.body)) }
{
    let mut numbers = ids(alloc, lambda)?;
    if is_backward(rule) {
        numbers.reverse();
    }
    Ok(numbers)
}

/// Sweeps a rule over a lambda: tries it at each number that the lambda has at the start, in
/// pre-order or, for a rule that goes backward, in that order reversed. The callees are what
/// functions that the lambda calls were made into. The steps that applied are appended to the log.
/// `NoMemory` only where the allocator has none, or where a node or a region has more than
/// 4294967295 contents of a kind; the lambda is then the one after the logged steps. It takes time
/// n log n in the lambda, in the callees and in what comes.
pub fn sweep(
    alloc: Global,
    rule: Rule,
    lambda: &mut Lambda,
    callees: &[Arc<Optimised>],
    log: &mut Vec<Step>,
) -> Result<(), NoMemory>
    requires well_formed { IsWellFormed lambda.old }
    ensures ok { OnOk result (record { lambda = lambda.new; steps = log.new.items } ≡
        sweep rules (lambdas_of (map arc_value callees.now))
        (record { lambda = lambda.old; steps = log.old.items }) rule) }
    ensures kept { IsWellFormed lambda.new }
    ensures err { OnErr result ((count : ℕ) ×
        (record { lambda = lambda.new; steps = log.new.items } ≡
        fold (tried rules (lambdas_of (map arc_value callees.now)) rule)
        (record { lambda = lambda.old; steps = log.old.items })
        (take count (in_order rules rule (region_ids lambda.old.body))))) }
{
    sweep_copy(alloc, rule, lambda, callees, log)
}

// The sweep, of a copy.
fn sweep_copy(
    alloc: Global,
    rule: Rule,
    lambda: &mut Lambda,
    callees: &[Arc<Optimised>],
    log: &mut Vec<Step>,
) -> Result<(), NoMemory>
    requires well_formed { IsWellFormed lambda.old }
    ensures ok { OnOk result (record { lambda = lambda.new; steps = log.new.items } ≡
        sweep rules (lambdas_of (map arc_value callees.now))
        (record { lambda = lambda.old; steps = log.old.items }) rule) }
    ensures kept { IsWellFormed lambda.new }
    ensures err_lambda { OnErr result (lambda.new ≡ lambda.old) }
    ensures err_log { OnErr result (log.new.items ≡ log.old.items) }
{
    let copy = copy_of(alloc, lambda)?;
    *lambda = swept_fast(alloc, rule, copy, callees, log)?;
    Ok(())
}

// The sweep, step by step.
fn sweep_steps(
    alloc: Global,
    rule: Rule,
    lambda: &mut Lambda,
    callees: &[Arc<Optimised>],
    log: &mut Vec<Step>,
) -> Result<(), NoMemory>
    requires well_formed { IsWellFormed lambda.old }
    ensures ok { OnOk result (record { lambda = lambda.new; steps = log.new.items } ≡
        sweep rules (lambdas_of (map arc_value callees.now))
        (record { lambda = lambda.old; steps = log.old.items }) rule) }
    ensures kept { IsWellFormed lambda.new }
    ensures err { OnErr result ((count : ℕ) ×
        (record { lambda = lambda.new; steps = log.new.items } ≡
        fold (tried rules (lambdas_of (map arc_value callees.now)) rule)
        (record { lambda = lambda.old; steps = log.old.items })
        (take count (in_order rules rule (region_ids lambda.old.body))))) }
{
    let numbers = numbers(alloc, rule, lambda)?;
    let mut sites = Sites::of(alloc, lambda, numbers.len())?;
    if !is_backward(rule) {
        sites.reverse();
    }
    for node in &numbers {
        let site = sites.take_last();
        try_at(alloc, rule, lambda, callees, *node, &sites, site, log)?;
    }
    Ok(())
}

// The step of the rule at the node, which stood there.
#[tactic(auto, using(crate::proofs::Swept::tried_unmade))]
fn try_at(
    alloc: Global,
    rule: Rule,
    lambda: &mut Lambda,
    callees: &[Arc<Optimised>],
    node: u32,
    sites: &Sites,
    site: Option<Site>,
    log: &mut Vec<Step>,
) -> Result<(), NoMemory>
    requires well_formed { IsWellFormed lambda.old }
    ensures ok { OnOk result (record { lambda = lambda.new; steps = log.new.items } ≡
        tried rules (lambdas_of (map arc_value callees.now)) rule
        (record { lambda = lambda.old; steps = log.old.items }) node) }
    ensures kept { IsWellFormed lambda.new }
    ensures err_lambda { OnErr result (lambda.new ≡ lambda.old) }
    ensures err_log { OnErr result (log.new.items ≡ log.old.items) }
{
    if let Some(site) = site {
        if !may_apply(rule, lambda, sites, site, node) {
            return Ok(());
        }
    }
    try_step(alloc, rule, lambda, callees, node, log)
}

// The fewest values of a lambda that a recipe sweeps at once. To put a smaller one into an arena, or to
// copy it along a walk, takes longer than to ask it at each of its nodes.
const LEAST_VALUES: u64 = 1024;

// Whether a recipe sweeps the rule step by step. What it answers changes no result. The other rules
// have more steps, or ask for what is counted once in a walk.
fn is_stepped(rule: Rule, lambda: &Lambda) -> bool {
    match rule {
        Rule::Fold | Rule::Cne | Rule::Dne | Rule::Inv | Rule::Invert | Rule::Unroll => {
            values(lambda) < LEAST_VALUES
        }
        _ => false,
    }
}

// What a sweep makes of a lambda, step by step.
fn stepped(
    alloc: Global,
    rule: Rule,
    lambda: Lambda,
    callees: &[Arc<Optimised>],
    log: &mut Vec<Step>,
) -> Result<Lambda, NoMemory>
    requires well_formed { IsWellFormed lambda }
    ensures ok { IfOk result (λ made. record { lambda = made; steps = log.new.items } ≡
        sweep rules (lambdas_of (map arc_value callees.now))
        (record { lambda = lambda; steps = log.old.items }) rule) }
    ensures kept { IfOk result (λ made. IsWellFormed made) }
{
    let mut lambda = lambda;
    match sweep_steps(alloc, rule, &mut lambda, callees, log) {
        Ok(()) => Ok(lambda),
        Err(fault) => {
            drop(lambda);
            Err(fault)
        }
    }
}

/// What a recipe makes of a lambda, sweep by sweep: the lambda, the steps that applied, and how
/// many values the lambda had before them. The callees are what functions that it calls were made
/// into. `NoMemory` only where `sweep` says so; the lambda is then given up.
pub fn optimise(
    alloc: Global,
    lambda: Lambda,
    callees: &[Arc<Optimised>],
    recipe: &Recipe,
) -> Result<Optimised, NoMemory>
    requires well_formed { IsWellFormed lambda }
    requires small { region_values lambda.body < 2 ^ 32 }
    ensures { IfOk result (λ made.
        made ≡ optimise rules (lambdas_of (map arc_value callees.now)) recipe.now lambda) }
{
    let before = values(&lambda) as u32;
    let mut lambda = lambda;
    let mut log = Vec::new(alloc);
    let mut left = recipe.as_slice();
    while let Some((rule, later)) = left.split_first() {
        let (here, after) = left.split_at(arena_rules(left));
        if is_stepped(*rule, &lambda) {
            lambda = stepped(alloc, *rule, lambda, callees, &mut log)?;
            left = later;
        } else if here.len() > 1 {
            lambda = swept_together(alloc, here, lambda, &mut log)?;
            left = after;
        } else {
            lambda = swept_fast(alloc, *rule, lambda, callees, &mut log)?;
            left = later;
        }
    }
    Ok(Optimised {
        lambda,
        steps: StepList::from(log),
        before,
    })
}
