//! Rules. `at RULE NODE` applies one at a node, and says `stays` where it does not apply there;
//! inlining takes the lambda before the last. `sweep RULE` and `recipe LIST` say each step; the
//! callees of a recipe are the lambdas before the last. `rules TEXT` says the sweeps of a recipe.

use crate::row::Row;
use base::NoMemory;
use g_graph::{Lambda, check, copy_of, values};
use g_pass::{Recipe, optimise, sweep};
use g_text::Named;
use r_rule::{Optimised, Rule, Step, StepList, all_rules, rule_name};
use std::alloc::Global;
use std::sync::Arc;

fn rule_named(name: &str) -> Option<Rule> {
    for rule in &all_rules() {
        if rule_name(*rule) == name {
            return Some(*rule);
        }
    }
    None
}

// Each of these applies a rule where the lambda is well formed and it applies, and says whether it
// did.

fn folds(alloc: Global, lambda: &mut Lambda, node: u32) -> Result<bool, NoMemory> {
    if !check(lambda) || !r_fold::applies(lambda, node) {
        return Ok(false);
    }
    r_fold::apply(alloc, lambda, node)?;
    Ok(true)
}

fn shares(lambda: &mut Lambda, node: u32) -> bool {
    if !check(lambda) || !r_cne::applies(lambda, node) {
        return false;
    }
    r_cne::apply(lambda, node);
    true
}

fn eliminates(alloc: Global, lambda: &mut Lambda, node: u32) -> Result<bool, NoMemory> {
    if !check(lambda) || !r_dne::applies(lambda, node) {
        return Ok(false);
    }
    r_dne::apply(alloc, lambda, node)?;
    Ok(true)
}

fn redirects(alloc: Global, lambda: &mut Lambda, node: u32) -> Result<bool, NoMemory> {
    if !check(lambda) || !r_inv::applies(lambda, node) {
        return Ok(false);
    }
    r_inv::apply(alloc, lambda, node)?;
    Ok(true)
}

fn pushes(alloc: Global, lambda: &mut Lambda, node: u32) -> Result<bool, NoMemory> {
    if !check(lambda) || !r_push::applies(lambda, node) {
        return Ok(false);
    }
    r_push::apply(alloc, lambda, node)?;
    Ok(true)
}

fn pulls(alloc: Global, lambda: &mut Lambda, node: u32) -> Result<bool, NoMemory> {
    if !check(lambda) || !r_pull::applies(lambda, node) {
        return Ok(false);
    }
    r_pull::apply(alloc, lambda, node)?;
    Ok(true)
}

fn unrolls(alloc: Global, lambda: &mut Lambda, node: u32) -> Result<bool, NoMemory> {
    if !check(lambda) || !r_unroll::applies(lambda, node) {
        return Ok(false);
    }
    r_unroll::apply(alloc, lambda, node)?;
    Ok(true)
}

fn inverts(alloc: Global, lambda: &mut Lambda, node: u32) -> Result<bool, NoMemory> {
    if !check(lambda) || !r_invert::applies(lambda, node) {
        return Ok(false);
    }
    r_invert::apply(alloc, lambda, node)?;
    Ok(true)
}

fn inlines(
    alloc: Global,
    lambda: &mut Lambda,
    node: u32,
    callee: Option<&Named>,
) -> Result<bool, NoMemory> {
    let Some(callee) = callee else {
        return Ok(false);
    };
    let callee = &callee.lambda;
    if !check(lambda) || !check(callee) || !r_inline::applies(lambda, node, callee) {
        return Ok(false);
    }
    r_inline::apply(alloc, lambda, node, callee)?;
    Ok(true)
}

fn is_applied(
    alloc: Global,
    rule: Rule,
    lambda: &mut Lambda,
    node: u32,
    callee: Option<&Named>,
) -> Result<bool, NoMemory> {
    match rule {
        Rule::Fold => folds(alloc, lambda, node),
        Rule::Cne => Ok(shares(lambda, node)),
        Rule::Dne => eliminates(alloc, lambda, node),
        Rule::Inv => redirects(alloc, lambda, node),
        Rule::Push => pushes(alloc, lambda, node),
        Rule::Pull => pulls(alloc, lambda, node),
        Rule::Unroll => unrolls(alloc, lambda, node),
        Rule::Invert => inverts(alloc, lambda, node),
        Rule::Inline => inlines(alloc, lambda, node, callee),
    }
}

fn rule_and_node(text: &str) -> Option<(Rule, u32)> {
    let (rule, node) = text.split_once(' ')?;
    Some((rule_named(rule)?, node.parse::<u32>().ok()?))
}

/// Applies a rule at a node.
pub fn at(row: &mut Row, last: &mut Named, text: &str) -> Result<(), NoMemory> {
    let Some((rule, node)) = rule_and_node(text) else {
        return row.say("no rule");
    };
    let callee = row.lambdas.last();
    if is_applied(row.alloc, rule, &mut last.lambda, node, callee)? {
        Ok(())
    } else {
        row.say("stays")
    }
}

fn say_steps(row: &mut Row, steps: &[Step]) -> Result<(), NoMemory> {
    for step in steps {
        let text = format!(in row.alloc; "{} {}", rule_name(step.rule), step.node)?;
        row.say(text.as_str())?;
    }
    Ok(())
}

fn swept(alloc: Global, rule: Rule, lambda: &mut Lambda) -> Result<Option<Vec<Step>>, NoMemory> {
    if !check(lambda) {
        return Ok(None);
    }
    let mut log = Vec::new(alloc);
    sweep(alloc, rule, lambda, &[], &mut log)?;
    Ok(Some(log))
}

/// Sweeps a rule over the lambda.
pub fn sweep_of(row: &mut Row, last: &mut Named, name: &str) -> Result<(), NoMemory> {
    let Some(rule) = rule_named(name) else {
        return row.say("no rule");
    };
    match swept(row.alloc, rule, &mut last.lambda)? {
        Some(steps) => say_steps(row, &steps),
        None => row.say("not well formed"),
    }
}

// The lambda as what a function was made into.
fn callee_of(alloc: Global, lambda: &Lambda) -> Result<Option<Arc<Optimised>>, NoMemory> {
    let lambda = copy_of(alloc, lambda)?;
    if !check(&lambda) {
        return Ok(None);
    }
    let steps = StepList::from(Vec::new(alloc));
    Ok(Some(Arc::new(
        alloc,
        Optimised {
            lambda,
            steps,
            before: 0,
        },
    )?))
}

/// The well-formed ones of these lambdas, as what functions were made into.
pub fn callees_of(alloc: Global, lambdas: &[Named]) -> Result<Vec<Arc<Optimised>>, NoMemory> {
    let mut all = Vec::new(alloc);
    for named in lambdas {
        if let Some(callee) = callee_of(alloc, &named.lambda)? {
            all.push(callee)?;
        }
    }
    Ok(all)
}

fn optimised(
    alloc: Global,
    lambda: &Lambda,
    callees: &[Arc<Optimised>],
    recipe: &Recipe,
) -> Result<Option<Optimised>, NoMemory> {
    let lambda = copy_of(alloc, lambda)?;
    if !check(&lambda) || values(&lambda) >= 1 << 32 {
        return Ok(None);
    }
    Ok(Some(optimise(alloc, lambda, callees, recipe)?))
}

/// Makes of the lambda what a recipe makes of it.
pub fn recipe(row: &mut Row, last: &mut Named, text: &str) -> Result<(), NoMemory> {
    let Some(recipe) = Recipe::read(text) else {
        return row.say("no recipe");
    };
    let callees = callees_of(row.alloc, &row.lambdas)?;
    match optimised(row.alloc, &last.lambda, &callees, &recipe)? {
        Some(made) => {
            row.say_number(u64::from(made.before))?;
            say_steps(row, made.steps.as_slice())?;
            last.lambda = copy_of(row.alloc, &made.lambda)?;
            Ok(())
        }
        None => row.say("not well formed"),
    }
}

/// Says the sweeps of a recipe.
pub fn rules(row: &mut Row, text: &str) -> Result<(), NoMemory> {
    match Recipe::read(text) {
        Some(recipe) => say_rules(row, &recipe),
        None => row.say("no recipe"),
    }
}

fn say_rules(row: &mut Row, recipe: &Recipe) -> Result<(), NoMemory> {
    row.say_number(recipe.as_slice().len() as u64)?;
    for rule in recipe.as_slice() {
        row.say(rule_name(*rule))?;
    }
    Ok(())
}
