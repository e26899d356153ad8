//! Sweeps at once, over an arena of the lambda or in one walk along it, which take time linear in it
//! but for what a walk's rule takes.

ghost use Rattle.std.specs.Prelude.{◌≡◌, ◌<◌, ◌≤◌, ◌++◌, ℕ, false, List, length, map, take, IfOk, OnErr, OnOk, IsTrue};
ghost use Rattle.std.specs.List.{fold};
ghost use Rattle.std.specs.Arc.{arc_value};
ghost use Rattle.g_graph.specs.Ids.{region_ids};
ghost use Rattle.g_graph.specs.Plain.{PlainLambda};
ghost use Rattle.g_graph.specs.WellFormed.{IsWellFormed};
ghost use Rattle.r_rule.specs.declared.steps.Step.{Step};
ghost use Rattle.g_arena_def.specs.Flat.{StandsFor};
ghost use Rattle.g_pass_def.specs.Answers.{lambdas_of};
ghost use Rattle.g_pass_def.specs.Sweep.{in_order, sweep};
ghost use Rattle.r_sweep.specs.Fast.{HasSwept, IsWhole};
ghost use Rattle.g_pass.specs.Fast.{change_of, is_in_arena, swept_each, AreInArena, AreSwept, RulesKeep};
ghost use Rattle.g_pass.specs.Sweep.{rules};

use base::{NoMemory, Steps};
use g_arena::Arena;
use g_graph::Lambda;
use r_rule::{Optimised, Rule, Step};
use std::alloc::Global;
use std::marker::Brand;
use std::sync::Arc;
use std::sync::ledger::{Blank, Ledger};

/// Whether a sweep of the rule goes over an arena.
pub const fn is_in_arena(rule: Rule) -> bool
    ensures { result ≡ is_in_arena rule }
{
    matches!(rule, Rule::Cne | Rule::Dne | Rule::Inv)
}

/// How many of these rules, from the first on, are swept over an arena.
pub fn arena_rules(sweeps: &[Rule]) -> usize
    ensures few { result ≤ length sweeps.now }
    ensures in_arena { AreInArena (take result sweeps.now) }
{
    match sweeps.split_first() {
        Some((rule, later)) if is_in_arena(*rule) => arena_rules(later) + 1,
        _ => 0,
    }
}

/// What a sweep of the rule makes of a lambda. The callees are what functions that the lambda
/// calls were made into. The steps that applied are appended to the log.
/// `NoMemory` only where the allocator has none, or where 32 bits do not count what a node or a
/// region has; the lambda is then given up, and the log is as it was.
pub fn swept_fast(
    alloc: Global,
    rule: Rule,
    lambda: Lambda,
    callees: &[Arc<Optimised>],
    log: &mut Vec<Step>,
) -> Result<Lambda, NoMemory>
    requires well_formed { IsWellFormed lambda }
    ensures ok { IfOk result (λ made. record { lambda = made; steps = log.new.items } ≡
        sweep rules (lambdas_of (map arc_value callees.now))
        (record { lambda = lambda; steps = log.old.items }) rule) }
    ensures kept { IfOk result (λ made. IsWellFormed made) }
    ensures err { OnErr result (log.new.items ≡ log.old.items) }
{
    let len = log.len();
    match swept_whole(alloc, rule, lambda, callees, log) {
        Ok(made) => Ok(made),
        Err(fault) => {
            log.truncate(len);
            Err(fault)
        }
    }
}

// The sweep. After NoMemory the log may have steps more.
fn swept_whole(
    alloc: Global,
    rule: Rule,
    lambda: Lambda,
    callees: &[Arc<Optimised>],
    log: &mut Vec<Step>,
) -> Result<Lambda, NoMemory>
    requires well_formed { IsWellFormed lambda }
    ensures ok { IfOk result (λ made. record { lambda = made; steps = log.new.items } ≡
        sweep rules (lambdas_of (map arc_value callees.now))
        (record { lambda = lambda; steps = log.old.items }) rule) }
    ensures kept { IfOk result (λ made. IsWellFormed made) }
    ensures err { OnErr result ((added : List Step) × (log.new.items ≡ log.old.items ++ added)) }
{
    if is_in_arena(rule) {
        swept_in::<Brand>(alloc, Blank::new(1), &[rule], lambda, log)
    } else {
        walked(alloc, rule, lambda, callees, log)
    }
}

/// What sweeps of these rules make of a lambda, one after the other, over one arena. The steps that
/// applied are appended to the log. `NoMemory` only where the allocator has none, or where 32 bits do
/// not count what a node or a region has; the lambda is then given up, and the log may have more
/// steps.
pub fn swept_together(
    alloc: Global,
    sweeps: &[Rule],
    lambda: Lambda,
    log: &mut Vec<Step>,
) -> Result<Lambda, NoMemory>
    requires in_arena { AreInArena sweeps.now }
    requires well_formed { IsWellFormed lambda }
    ensures ok { (callees : List PlainLambda) → IfOk result (λ made.
        record { lambda = made; steps = log.new.items } ≡ fold (sweep rules callees)
        (record { lambda = lambda; steps = log.old.items }) sweeps.now) }
    ensures kept { IfOk result (λ made. IsWellFormed made) }
{
    swept_in::<Brand>(alloc, Blank::new(1), sweeps, lambda, log)
}

// The sweeps, with their looks counted in a ledger of their own. After NoMemory the log may have
// steps more.
fn swept_in<L: Ledger>(
    alloc: Global,
    blank: Blank,
    sweeps: &[Rule],
    lambda: Lambda,
    log: &mut Vec<Step>,
) -> Result<Lambda, NoMemory>
    requires name { blank.name ≡ L.name }
    requires parts { blank.parts ≡ L.parts }
    requires some { 0 < blank.parts }
    requires in_arena { AreInArena sweeps.now }
    requires well_formed { IsWellFormed lambda }
    ensures ok { IfOk result (λ made. record { lambda = made; steps = log.new.items } ≡
        swept_each sweeps.now (record { lambda = lambda; steps = log.old.items })) }
    ensures kept { IfOk result (λ made. IsWellFormed made) }
    ensures err { OnErr result ((added : List Step) × (log.new.items ≡ log.old.items ++ added)) }
{
    rules_keep();
    let mut looks = Steps::<L>::new(blank);
    let mut arena = Arena::of(alloc, lambda, &mut looks)?;
    match sweep_each(alloc, sweeps, &mut arena, log, &mut looks) {
        Ok(()) => arena.into_lambda(&mut looks),
        Err(fault) => {
            drop(arena);
            Err(fault)
        }
    }
}

// The sweep in one walk. After NoMemory the log may have steps more.
fn walked(
    alloc: Global,
    rule: Rule,
    lambda: Lambda,
    callees: &[Arc<Optimised>],
    log: &mut Vec<Step>,
) -> Result<Lambda, NoMemory>
    requires no_arena { is_in_arena rule ≡ false }
    requires well_formed { IsWellFormed lambda }
    ensures ok { IfOk result (λ made. record { lambda = made; steps = log.new.items } ≡
        sweep rules (lambdas_of (map arc_value callees.now))
        (record { lambda = lambda; steps = log.old.items }) rule) }
    ensures kept { IfOk result (λ made. IsWellFormed made) }
    ensures err { OnErr result ((added : List Step) × (log.new.items ≡ log.old.items ++ added)) }
{
    rules_keep();
    match rule {
        Rule::Fold => r_fold::sweep_fast(alloc, lambda, log),
        Rule::Push => r_push::sweep_fast(alloc, lambda, log),
        Rule::Pull => r_pull::sweep_fast(alloc, lambda, log),
        Rule::Unroll => r_unroll::sweep_fast(alloc, lambda, log),
        Rule::Invert => r_invert::sweep_fast(alloc, lambda, log),
        Rule::Inline => r_inline::sweep_fast(alloc, lambda, callees, log),
        _ => unreachable!(),
    }
}

// Sweeps of these rules over an arena, one after the other. After NoMemory the log may have steps
// more.
fn sweep_each<L: Ledger>(
    alloc: Global,
    sweeps: &[Rule],
    arena: &mut Arena,
    log: &mut Vec<Step>,
    looks: &mut Steps<L>,
) -> Result<(), NoMemory>
    requires in_arena { AreInArena sweeps.now }
    requires whole { IsWhole arena.old }
    ensures ok { (l : PlainLambda) → StandsFor arena.old l → IsWellFormed l → OnOk result
        (AreSwept sweeps.now l log.old.items arena.new log.new.items) }
    ensures err { OnErr result ((added : List Step) × (log.new.items ≡ log.old.items ++ added)) }
{
    let Some((rule, later)) = sweeps.split_first() else {
        return Ok(());
    };
    rules_keep();
    sweep_arena(alloc, *rule, arena, log, looks)?;
    sweep_each(alloc, later, arena, log, looks)
}

// The sweep of a rule over an arena.
fn sweep_arena<L: Ledger>(
    alloc: Global,
    rule: Rule,
    arena: &mut Arena,
    log: &mut Vec<Step>,
    looks: &mut Steps<L>,
) -> Result<(), NoMemory>
    requires in_arena { IsTrue (is_in_arena rule) }
    requires whole { IsWhole arena.old }
    ensures ok { (l : PlainLambda) → StandsFor arena.old l → IsWellFormed l → OnOk result
        (HasSwept (change_of rule) (in_order rules rule (region_ids l.body)) l log.old.items
        arena.new log.new.items) }
    ensures err { (l : PlainLambda) → StandsFor arena.old l → IsWellFormed l → OnErr result
        ((count : ℕ) × HasSwept (change_of rule)
        (take count (in_order rules rule (region_ids l.body))) l log.old.items
        arena.new log.new.items) }
{
    match rule {
        Rule::Cne => r_cne::sweep_fast(alloc, arena, log, looks),
        Rule::Dne => r_dne::sweep_fast(alloc, arena, log, looks),
        Rule::Inv => r_inv::sweep_fast(alloc, arena, log, looks),
        _ => unreachable!(),
    }
}

// What a rule that looks at its lambda alone makes of a well-formed lambda is well formed.
fn rules_keep()
    ensures { RulesKeep }
{
    r_fold::laws::fold_keeps_meaning();
    r_cne::laws::cne_keeps_meaning();
    r_dne::laws::dne_keeps_meaning();
    r_inv::laws::inv_keeps_meaning();
    r_push::laws::push_keeps_meaning();
    r_pull::laws::pull_keeps_meaning();
    r_unroll::laws::unroll_keeps_meaning();
    r_invert::laws::invert_keeps_meaning();
}
