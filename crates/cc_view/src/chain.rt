//! Chains of calls.

ghost use Rattle.std.specs.Prelude.{◌≡◌};
ghost use Rattle.cc_view.specs.Depths.{depth_at};

use base::NoMemory;
use g_graph::{Lambda, Node, Op, Region};
use std::alloc::Global;

/// What is known of the depth of the function of this number.
#[tactic(auto, using(std::proofs::lemmas::List::get_or_default, std::proofs::lemmas::List::get_or_past))]
pub(crate) fn depth_at(depths: &[Option<u64>], function: usize) -> Option<u64>
    ensures { result ≡ depth_at depths.now function }
{
    if function < depths.len() {
        depths[function]
    } else {
        None
    }
}

// Whether the first function is deeper than the second, where there is one.
fn is_deeper(depths: &[Option<u64>], function: u32, other: Option<u32>) -> bool {
    let depth = depth_at(depths, function as usize);
    match other {
        Some(other) => match (depth, depth_at(depths, other as usize)) {
            (Some(depth), Some(most)) => depth > most,
            _ => false,
        },
        None => depth.is_some(),
    }
}

fn op_deepest(op: Op, depths: &[Option<u64>], so_far: Option<u32>) -> Option<u32> {
    match op {
        Op::Apply(function) => {
            if is_deeper(depths, function, so_far) {
                Some(function)
            } else {
                so_far
            }
        }
        _ => so_far,
    }
}

#[cycle(walked)]
fn region_deepest(region: &Region, depths: &[Option<u64>], so_far: Option<u32>) -> Option<u32> {
    let mut deepest = so_far;
    for node in &region.nodes {
        deepest = node_deepest(node, depths, deepest);
    }
    deepest
}

#[cycle(walked)]
fn node_deepest(node: &Node, depths: &[Option<u64>], so_far: Option<u32>) -> Option<u32> {
    let mut deepest = op_deepest(node.op, depths, so_far);
    for region in &node.regions {
        deepest = region_deepest(region, depths, deepest);
    }
    deepest
}

// The deepest of the functions that this one calls.
fn next_of(lambdas: &[Lambda], depths: &[Option<u64>], function: u32) -> Option<u32> {
    let index = function as usize;
    if index < lambdas.len() {
        let lambda = &lambdas[index];
        region_deepest(&lambda.body, depths, None)
    } else {
        None
    }
}

/// A deepest chain of calls from a function on. It has no more calls than there are functions.
pub(crate) fn chain_from(
    alloc: Global,
    lambdas: &[Lambda],
    depths: &[Option<u64>],
    function: u32,
) -> Result<Vec<u32>, NoMemory> {
    let mut chain = Vec::new(alloc);
    let mut last = function;
    chain.push(last)?;
    for _ in 0..lambdas.len() {
        match next_of(lambdas, depths, last) {
            Some(next) => {
                chain.push(next)?;
                last = next;
            }
            None => break,
        }
    }
    Ok(chain)
}
