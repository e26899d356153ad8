//! Steps: a rule at a node.

ghost use Rattle.std.specs.Prelude.{◌≡◌, if◌then◌else◌, false, map, OnOk, OnErr, IfOk, IsTrue};
ghost use Rattle.std.specs.Arc.{arc_value};
ghost use Rattle.std.specs.declared.option.Option.TheVariants.{Some, None};
ghost use Rattle.g_graph.specs.WellFormed.{IsWellFormed};
ghost use Rattle.r_rule.specs.declared.steps.Rule.TheVariants.{Inline};
ghost use Rattle.g_pass_def.specs.Answers.{lambdas_of};
ghost use Rattle.g_pass_def.specs.Sweep.{tried};
ghost use Rattle.g_pass.specs.Sweep.{applies, applied, is_backward, rules};

use crate::callee::inlined_at;
use base::NoMemory;
use g_graph::Lambda;
use r_rule::{Optimised, Rule, Step};
use std::alloc::Global;
use std::sync::Arc;

/// Whether a sweep of the rule goes from the last node to the first.
pub const fn is_backward(rule: Rule) -> bool
    ensures { result ≡ is_backward rule }
{
    matches!(rule, Rule::Dne | Rule::Pull)
}

// Whether a rule that looks at its lambda alone applies.
fn applies(rule: Rule, lambda: &Lambda, node: u32) -> bool
    ensures { result ≡ applies rule lambda.now node }
{
    match rule {
        Rule::Fold => r_fold::applies(lambda, node),
        Rule::Cne => r_cne::applies(lambda, node),
        Rule::Dne => r_dne::applies(lambda, node),
        Rule::Inv => r_inv::applies(lambda, node),
        Rule::Push => r_push::applies(lambda, node),
        Rule::Pull => r_pull::applies(lambda, node),
        Rule::Unroll => r_unroll::applies(lambda, node),
        Rule::Invert => r_invert::applies(lambda, node),
        Rule::Inline => false,
    }
}

#[tactic(auto, using(crate::proofs::Kept::step_keeps))]
fn apply(alloc: Global, rule: Rule, lambda: &mut Lambda, node: u32) -> Result<(), NoMemory>
    requires well_formed { IsWellFormed lambda.old }
    requires applies { IsTrue (applies rule lambda.old node) }
    ensures ok { OnOk result (lambda.new ≡ applied rule node lambda.old) }
    ensures kept { IsWellFormed lambda.new }
    ensures err { OnErr result (lambda.new ≡ lambda.old) }
{
    match rule {
        Rule::Fold => r_fold::apply(alloc, lambda, node),
        Rule::Cne => {
            r_cne::apply(lambda, node);
            Ok(())
        }
        Rule::Dne => r_dne::apply(alloc, lambda, node),
        Rule::Inv => r_inv::apply(alloc, lambda, node),
        Rule::Push => r_push::apply(alloc, lambda, node),
        Rule::Pull => r_pull::apply(alloc, lambda, node),
        Rule::Unroll => r_unroll::apply(alloc, lambda, node),
        Rule::Invert => r_invert::apply(alloc, lambda, node),
        Rule::Inline => Ok(()),
    }
}

// A step of a rule that looks at its lambda alone.
fn step_alone(alloc: Global, step: Step, lambda: &mut Lambda) -> Result<bool, NoMemory>
    requires well_formed { IsWellFormed lambda.old }
    ensures made { IfOk result (λ made.
        (if applies step.rule lambda.old step.node
        then Some (applied step.rule step.node lambda.old) else None)
        ≡ (if made then Some lambda.new else None)) }
    ensures unmade { IfOk result (λ made. made ≡ false → lambda.new ≡ lambda.old) }
    ensures kept { IsWellFormed lambda.new }
    ensures err { OnErr result (lambda.new ≡ lambda.old) }
{
    if !applies(step.rule, lambda, step.node) {
        return Ok(false);
    }
    apply(alloc, step.rule, lambda, step.node)?;
    Ok(true)
}

// A step of inlining.
#[tactic(auto, using(crate::proofs::Kept::held_keeps))]
fn step_inline(
    alloc: Global,
    lambda: &mut Lambda,
    callees: &[Arc<Optimised>],
    node: u32,
) -> Result<bool, NoMemory>
    requires well_formed { IsWellFormed lambda.old }
    ensures made { IfOk result (λ made.
        rules.step Inline (lambdas_of (map arc_value callees.now)) node lambda.old
        ≡ (if made then Some lambda.new else None)) }
    ensures unmade { IfOk result (λ made. made ≡ false → lambda.new ≡ lambda.old) }
    ensures kept { IsWellFormed lambda.new }
    ensures err { OnErr result (lambda.new ≡ lambda.old) }
{
    match inlined_at(lambda, node, callees) {
        Some(callee) => {
            r_inline::apply(alloc, lambda, node, callee)?;
            Ok(true)
        }
        None => Ok(false),
    }
}

/// Makes a step: applies its rule at its node, if the rule applies there. The callees are what
/// functions that the lambda calls were made into. True where it applied, with the lambda that the
/// rule makes; the lambda is as it was on every other answer. `NoMemory` only where the allocator
/// has none.
#[tactic(auto, using(crate::proofs::Inlined::looks_at_its_lambda))]
pub fn step(
    alloc: Global,
    step: Step,
    lambda: &mut Lambda,
    callees: &[Arc<Optimised>],
) -> Result<bool, NoMemory>
    requires well_formed { IsWellFormed lambda.old }
    ensures made { IfOk result (λ made.
        rules.step step.rule (lambdas_of (map arc_value callees.now)) step.node lambda.old
        ≡ (if made then Some lambda.new else None)) }
    ensures unmade { IfOk result (λ made. made ≡ false → lambda.new ≡ lambda.old) }
    ensures kept { IsWellFormed lambda.new }
    ensures err { OnErr result (lambda.new ≡ lambda.old) }
{
    match step.rule {
        Rule::Inline => step_inline(alloc, lambda, callees, step.node),
        _ => step_alone(alloc, step, lambda),
    }
}

/// Makes the step of the rule at the node, as `step`, and notes it in the log where the rule
/// applied. `NoMemory` only where the allocator has none; lambda and log are then as they were.
#[tactic(auto, using(crate::proofs::Swept::tried_made, crate::proofs::Swept::tried_unmade))]
pub fn try_step(
    alloc: Global,
    rule: Rule,
    lambda: &mut Lambda,
    callees: &[Arc<Optimised>],
    node: u32,
    log: &mut Vec<Step>,
) -> Result<(), NoMemory>
    requires well_formed { IsWellFormed lambda.old }
    ensures ok { OnOk result (record { lambda = lambda.new; steps = log.new.items } ≡
        tried rules (lambdas_of (map arc_value callees.now)) rule
        (record { lambda = lambda.old; steps = log.old.items }) node) }
    ensures kept { IsWellFormed lambda.new }
    ensures err_lambda { OnErr result (lambda.new ≡ lambda.old) }
    ensures err_log { OnErr result (log.new.items ≡ log.old.items) }
{
    let tried = Step { rule, node };
    log.push(tried)?;
    let made = step(alloc, tried, lambda, callees);
    if !matches!(made, Ok(true)) {
        log.pop();
    }
    made?;
    Ok(())
}
