//! Series of steps: those of one rule that follow each other.

ghost use Rattle.std.specs.Prelude.{◌≡◌, ◌+◌, ◌<◌, ◌≤◌, ◌^◌, ◌↔◌, Some, length, map, take, IfOk, IfErr, IsTrue};
ghost use Rattle.std.specs.Arc.{arc_value};
ghost use Rattle.g_graph.specs.WellFormed.{IsWellFormed};
ghost use Rattle.g_pass_def.specs.Answers.{lambdas_of};
ghost use Rattle.g_pass_def.specs.Sweep.{replayed};
ghost use Rattle.g_pass.specs.Sweep.{rules};
ghost use Rattle.log_check.specs.Fault.{StepsFail};

use crate::replay_fault::ReplayFault;
use crate::replay_laws::sweeps_replay;
use base::NoMemory;
use g_graph::{Lambda, copy_of};
use g_pass::{step, sweep};
use r_rule::{Optimised, Rule, Step};
use std::alloc::Global;
use std::sync::Arc;

// The fewest steps of a series for which a sweep is tried. A sweep of these rules takes time linear
// in the lambda, as a step does, so it costs no more than the steps of the series one by one.
const LEAST_SERIES: usize = 16;

// How many of the first steps have the rule of the first one.
fn series_length(steps: &[Step]) -> usize
    requires { 0 < length steps.now }
    ensures some { 0 < result }
    ensures within { result ≤ length steps.now }
{
    let rule = steps[0].rule;
    for index in 1..steps.len() {
        if steps[index].rule != rule {
            return index;
        }
    }
    steps.len()
}

// Whether a sweep of the rule is tried where a log has a series of so many steps of it. What it
// answers changes no lambda and no fault.
fn is_swept(rule: Rule, count: usize) -> bool {
    matches!(rule, Rule::Cne | Rule::Dne) && count >= LEAST_SERIES
}

// Whether steps begin with these ones.
fn begin_with(steps: &[Step], first: &[Step]) -> bool
    ensures within { IsTrue result → length first.now ≤ length steps.now }
    ensures same { IsTrue result ↔ (first.now ≡ take (length first.now) steps.now) }
{
    steps.starts_with(first)
}

// Sweeps a copy of the lambda by a rule, and takes it if the steps of the sweep are the first ones
// of these; says how many they are. Where they are others, none is made.
fn made_by_sweep(
    alloc: Global,
    rule: Rule,
    lambda: &mut Lambda,
    callees: &[Arc<Optimised>],
    steps: &[Step],
) -> Result<usize, NoMemory>
    requires well_formed { IsWellFormed lambda.old }
    ensures within { IfOk result (λ count. count ≤ length steps.now) }
    ensures made { IfOk result (λ count.
        replayed rules (lambdas_of (map arc_value callees.now)) (take count steps.now) lambda.old
        ≡ Some lambda.new) }
    ensures kept { IsWellFormed lambda.new }
{
    sweeps_replay();
    let mut copy = copy_of(alloc, lambda)?;
    let mut log = Vec::new(alloc);
    sweep(alloc, rule, &mut copy, callees, &mut log)?;
    if !begin_with(steps, &log) {
        return Ok(0);
    }
    *lambda = copy;
    Ok(log.len())
}

// Makes such a sweep by the rule of the first step, where one is tried for a series of so many.
fn made_at_once(
    alloc: Global,
    lambda: &mut Lambda,
    callees: &[Arc<Optimised>],
    steps: &[Step],
    count: usize,
) -> Result<usize, NoMemory>
    requires well_formed { IsWellFormed lambda.old }
    requires some { 0 < length steps.now }
    ensures within { IfOk result (λ count. count ≤ length steps.now) }
    ensures made { IfOk result (λ count.
        replayed rules (lambdas_of (map arc_value callees.now)) (take count steps.now) lambda.old
        ≡ Some lambda.new) }
    ensures kept { IsWellFormed lambda.new }
{
    let rule = steps[0].rule;
    if !is_swept(rule, count) {
        return Ok(0);
    }
    made_by_sweep(alloc, rule, lambda, callees, steps)
}

// Makes all steps, one by one, and says how many they are. A step is told by its line; the one
// before the first is given.
fn made_singly(
    alloc: Global,
    lambda: &mut Lambda,
    callees: &[Arc<Optimised>],
    steps: &[Step],
    line: u32,
) -> Result<usize, ReplayFault>
    requires well_formed { IsWellFormed lambda.old }
    requires short { line + length steps.now < 2 ^ 32 }
    ensures made { IfOk result (λ count. (count ≡ length steps.now)
        × (replayed rules (lambdas_of (map arc_value callees.now)) steps.now lambda.old
        ≡ Some lambda.new)) }
    ensures kept { IsWellFormed lambda.new }
    ensures fault { IfErr result (λ e.
        StepsFail (lambdas_of (map arc_value callees.now)) steps.now lambda.old line e) }
{
    for index in 0..steps.len() {
        if !step(alloc, steps[index], lambda, callees)? {
            return Err(ReplayFault::BadStep {
                line: line + 1 + index as u32,
            });
        }
    }
    Ok(steps.len())
}

/// Makes the first of these steps, and says how many, at least one: those of a sweep, where a sweep
/// is tried and makes just these, else those of a series, one by one. A step is told by its line;
/// the one before the first is given.
pub fn made_series(
    alloc: Global,
    lambda: &mut Lambda,
    callees: &[Arc<Optimised>],
    steps: &[Step],
    line: u32,
) -> Result<usize, ReplayFault>
    requires well_formed { IsWellFormed lambda.old }
    requires some { 0 < length steps.now }
    requires short { line + length steps.now < 2 ^ 32 }
    ensures some { IfOk result (λ count. 0 < count) }
    ensures within { IfOk result (λ count. count ≤ length steps.now) }
    ensures made { IfOk result (λ count.
        replayed rules (lambdas_of (map arc_value callees.now)) (take count steps.now) lambda.old
        ≡ Some lambda.new) }
    ensures kept { IsWellFormed lambda.new }
    ensures fault { IfErr result (λ e.
        StepsFail (lambdas_of (map arc_value callees.now)) steps.now lambda.old line e) }
{
    let count = series_length(steps);
    let swept = made_at_once(alloc, lambda, callees, steps, count)?;
    if swept > 0 {
        return Ok(swept);
    }
    made_singly(alloc, lambda, callees, &steps[..count], line)
}
