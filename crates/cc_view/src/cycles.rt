//! Functions that call each other.

use base::NoMemory;
use g_graph::{Lambda, Node, Op, Region};
use std::alloc::Global;

fn push_called(op: Op, calls: &mut Vec<u32>) -> Result<(), NoMemory> {
    match op {
        Op::Apply(function) => Ok(calls.push(function)?),
        _ => Ok(()),
    }
}

#[cycle(pushed)]
fn push_region(region: &Region, calls: &mut Vec<u32>) -> Result<(), NoMemory> {
    for node in &region.nodes {
        push_node(node, calls)?;
    }
    Ok(())
}

#[cycle(pushed)]
fn push_node(node: &Node, calls: &mut Vec<u32>) -> Result<(), NoMemory> {
    push_called(node.op, calls)?;
    for region in &node.regions {
        push_region(region, calls)?;
    }
    Ok(())
}

// The functions that the one of this number calls, one for each call.
fn calls_of(alloc: Global, lambdas: &[Lambda], function: usize) -> Result<Vec<u32>, NoMemory> {
    let mut calls = Vec::new(alloc);
    if function < lambdas.len() {
        let lambda = &lambdas[function];
        push_region(&lambda.body, &mut calls)?;
    }
    Ok(calls)
}

fn mark(marks: &mut [bool], index: usize) {
    if index < marks.len() {
        marks[index] = true;
    }
}

fn is_marked(marks: &[bool], index: usize) -> bool {
    index < marks.len() && marks[index]
}

fn is_among(functions: &[u32], function: u32) -> bool {
    for other in functions {
        if *other == function {
            return true;
        }
    }
    false
}

// Whether the function of this number calls one that is not among its deps, so one of its unit.
fn calls_its_unit(calls: &[u32], deps: &[Vec<u32>], function: usize) -> bool {
    if function >= deps.len() {
        return false;
    }
    for called in calls {
        if !is_among(&deps[function], *called) {
            return true;
        }
    }
    false
}

// Appends those of the calls that were not reached and that do not wait yet.
fn push_unreached(waiting: &mut Vec<u32>, calls: &[u32], reached: &[bool]) -> Result<(), NoMemory> {
    for called in calls {
        if !is_marked(reached, *called as usize) && !is_among(waiting.as_slice(), *called) {
            waiting.push(*called)?;
        }
    }
    Ok(())
}

// The numbers of the marks that are set.
fn marked(alloc: Global, marks: &[bool]) -> Result<Vec<u32>, NoMemory> {
    let mut numbers = Vec::new(alloc);
    for (number, is_set) in (0..u32::MAX).zip(marks) {
        if *is_set {
            numbers.push(number)?;
        }
    }
    Ok(numbers)
}

/// The functions that `main` reaches and that call a function which is not among their deps, so one
/// that leads back to them.
pub(crate) fn recursive_from(
    alloc: Global,
    lambdas: &[Lambda],
    deps: &[Vec<u32>],
    main: u32,
) -> Result<Vec<u32>, NoMemory> {
    let mut reached = vec![in alloc; false; lambdas.len()]?;
    let mut recursive = vec![in alloc; false; lambdas.len()]?;
    let mut waiting = Vec::new(alloc);
    waiting.push(main)?;
    for _ in 0..lambdas.len() {
        let Some(function) = waiting.pop() else {
            break;
        };
        let index = function as usize;
        mark(&mut reached, index);
        let calls = calls_of(alloc, lambdas, index)?;
        if calls_its_unit(&calls, deps, index) {
            mark(&mut recursive, index);
        }
        push_unreached(&mut waiting, &calls, &reached)?;
    }
    marked(alloc, &recursive)
}
