//! Arenas and walks. `check` puts a lambda that is well formed into an arena and takes it out
//! again, and sweeps each rule over it both step by step and at once, where the callees are the
//! lambdas before it; it says where the two differ. `left NODES` sweeps `dne`
//! over an arena of the lambda, and says which of these nodes the arena then has.

ghost use Rattle.std.specs.Prelude.{◌≡◌, ◌<◌};
ghost use Rattle.g_graph.specs.WellFormed.{IsWellFormed};

use crate::row::Row;
use crate::rules::callees_of;
use base::{NoMemory, Steps};
use g_arena::Arena;
use g_graph::{Lambda, check, copy_of, equal, ids};
use g_pass::{step, sweep};
use r_rule::{Optimised, Rule, Step, rule_name};
use std::alloc::Global;
use std::marker::Brand;
use std::sync::Arc;
use std::sync::ledger::{Blank, Ledger};

// A lambda that was put into an arena and taken out again.
fn taken_out<L: Ledger>(alloc: Global, blank: Blank, lambda: Lambda) -> Result<Lambda, NoMemory>
    requires name { blank.name ≡ L.name }
    requires parts { blank.parts ≡ L.parts }
    requires some { 0 < blank.parts }
    requires well_formed { IsWellFormed lambda }
{
    let mut looks = Steps::<L>::new(blank);
    let arena = Arena::of(alloc, lambda, &mut looks)?;
    arena.into_lambda(&mut looks)
}

// Whether an arena gives the lambda that it was made of.
fn comes_back(alloc: Global, lambda: &Lambda) -> Result<bool, NoMemory>
    requires { IsWellFormed lambda.now }
{
    let copy = copy_of(alloc, lambda)?;
    let back = taken_out::<Brand>(alloc, Blank::new(1), copy)?;
    Ok(equal(&back, lambda))
}

// Sweeps a rule step by step.
fn sweep_by_steps(
    alloc: Global,
    rule: Rule,
    lambda: &mut Lambda,
    callees: &[Arc<Optimised>],
    log: &mut Vec<Step>,
) -> Result<(), NoMemory>
    requires { IsWellFormed lambda.old }
{
    let mut numbers = ids(alloc, lambda)?;
    if matches!(rule, Rule::Dne | Rule::Pull) {
        numbers.reverse();
    }
    for node in &numbers {
        let tried = Step { rule, node: *node };
        if step(alloc, tried, lambda, callees)? {
            log.push(tried)?;
        }
    }
    Ok(())
}

// Whether both sweeps of a rule make the same steps and the same lambda.
fn agree(
    alloc: Global,
    rule: Rule,
    lambda: &Lambda,
    callees: &[Arc<Optimised>],
) -> Result<bool, NoMemory>
    requires { IsWellFormed lambda.now }
{
    let mut one = copy_of(alloc, lambda)?;
    let mut steps = Vec::new(alloc);
    sweep_by_steps(alloc, rule, &mut one, callees, &mut steps)?;
    let mut other = copy_of(alloc, lambda)?;
    let mut log = Vec::new(alloc);
    sweep(alloc, rule, &mut other, callees, &mut log)?;
    Ok(equal(&one, &other) && steps.as_slice() == log.as_slice())
}

fn compare(row: &mut Row, lambda: &Lambda) -> Result<(), NoMemory>
    requires { IsWellFormed lambda.now }
{
    if !comes_back(row.alloc, lambda)? {
        row.say("another lambda comes out of an arena")?;
    }
    let callees = callees_of(row.alloc, &row.lambdas)?;
    for rule in [
        Rule::Fold,
        Rule::Cne,
        Rule::Dne,
        Rule::Inv,
        Rule::Push,
        Rule::Pull,
        Rule::Inline,
        Rule::Invert,
        Rule::Unroll,
    ] {
        if !agree(row.alloc, rule, lambda, &callees)? {
            row.say(rule_name(rule))?;
            row.say("sweeps differ")?;
        }
    }
    Ok(())
}

/// Says whether the lambda is well formed; where it is, both sweeps are compared.
pub fn check_of(row: &mut Row, lambda: &Lambda) -> Result<(), NoMemory> {
    if !check(lambda) {
        return row.say("not well formed");
    }
    compare(row, lambda)?;
    row.say("well formed")
}

// Whether the arena of the lambda has each of these nodes after a sweep.
fn are_left<L: Ledger>(
    alloc: Global,
    blank: Blank,
    lambda: Lambda,
    nodes: &[u32],
) -> Result<Vec<bool>, NoMemory>
    requires name { blank.name ≡ L.name }
    requires parts { blank.parts ≡ L.parts }
    requires some { 0 < blank.parts }
    requires well_formed { IsWellFormed lambda }
{
    let mut looks = Steps::<L>::new(blank);
    let mut arena = Arena::of(alloc, lambda, &mut looks)?;
    let mut log = Vec::new(alloc);
    r_dne::sweep_fast(alloc, &mut arena, &mut log, &mut looks)?;
    let mut left = Vec::new(alloc);
    for node in nodes {
        left.push(arena.node(*node, &mut looks).is_some())?;
    }
    Ok(left)
}

fn numbers_of(alloc: Global, words: &str) -> Result<Vec<u32>, NoMemory> {
    let mut numbers = Vec::new(alloc);
    for word in words.split_whitespace() {
        numbers.push(word.parse::<u32>().unwrap_or(0))?;
    }
    Ok(numbers)
}

/// Says which of these nodes a sweep of `dne` leaves.
pub fn left(row: &mut Row, lambda: &Lambda, nodes: &str) -> Result<(), NoMemory> {
    if !check(lambda) {
        return row.say("not well formed");
    }
    let nodes = numbers_of(row.alloc, nodes)?;
    let copy = copy_of(row.alloc, lambda)?;
    for is_left in &are_left::<Brand>(row.alloc, Blank::new(1), copy, &nodes)? {
        row.say_whether(*is_left, "there", "gone")?;
    }
    Ok(())
}
