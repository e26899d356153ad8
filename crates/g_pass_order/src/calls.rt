//! The functions that lambdas call.

ghost use Rattle.std.specs.Prelude.{◌≡◌, ℕ, ◌<◌, ◌++◌, ◌↔◌, Contains, IfOk, OnOk};
ghost use Rattle.std.specs.List.Sorted.{IsStrictlyIncreasing};
ghost use Rattle.call_order.specs.Units.{call_lists};
ghost use Rattle.g_pass_order.specs.Calls.{callees, calls_of, node_calls, op_calls, region_calls, CallsAreKnown};

use base::NoMemory;
use g_graph::{Lambda, Node, Op, Region};
use std::alloc::Global;

fn push_op(op: Op, calls: &mut Vec<u32>) -> Result<(), NoMemory>
    ensures { OnOk result (calls.new.items ≡ calls.old.items ++ op_calls op) }
{
    match op {
        Op::Apply(function) => Ok(calls.push(function)?),
        _ => Ok(()),
    }
}

#[cycle(pushed)]
fn push_region(region: &Region, calls: &mut Vec<u32>) -> Result<(), NoMemory>
    ensures { OnOk result (calls.new.items ≡ calls.old.items ++ region_calls region.now) }
{
    for node in &region.nodes {
        push_node(node, calls)?;
    }
    Ok(())
}

#[cycle(pushed)]
fn push_node(node: &Node, calls: &mut Vec<u32>) -> Result<(), NoMemory>
    ensures { OnOk result (calls.new.items ≡ calls.old.items ++ node_calls node.now) }
{
    push_op(node.op, calls)?;
    for region in &node.regions {
        push_region(region, calls)?;
    }
    Ok(())
}

// Puts the numbers in increasing order, each once.
fn put_in_order(numbers: &mut Vec<u32>)
    ensures increasing { IsStrictlyIncreasing numbers.new.items }
    ensures same { (n : ℕ) → Contains numbers.new.items n ↔ Contains numbers.old.items n }
{
    numbers.sort_unstable();
    numbers.dedup();
}

// Of so many functions those that the lambda calls, increasing and each once.
fn called(alloc: Global, lambda: &Lambda, functions: usize) -> Result<Vec<u32>, NoMemory>
    requires { (f : ℕ) → Contains (region_calls lambda.now.body) f → f < functions }
    ensures { IfOk result (λ found. found.items ≡ callees functions lambda.now) }
{
    let mut found = Vec::new(alloc);
    push_region(&lambda.body, &mut found)?;
    put_in_order(&mut found);
    Ok(found)
}

/// For each lambda the functions that it calls, increasing and each once.
pub fn calls(alloc: Global, lambdas: &[Lambda]) -> Result<Vec<Vec<u32>>, NoMemory>
    requires known { CallsAreKnown lambdas.now }
    ensures { IfOk result (λ calls. call_lists calls.items ≡ calls_of lambdas.now) }
{
    let mut calls = Vec::with_capacity(alloc, lambdas.len())?;
    for lambda in lambdas {
        calls.push(called(alloc, lambda, lambdas.len())?)?;
    }
    Ok(calls)
}
