//! How many values a lambda has, and how many outputs a node.

ghost use Rattle.std.specs.Prelude.{◌≡◌, length};
ghost use Rattle.g_graph.specs.Signatures.{output_kinds};
ghost use Rattle.g_graph.specs.Count.{saturated, region_values, node_values};

use crate::{Lambda, Node, Op, Region};

/// How many values the lambda has: one for each region, region argument, node, node output and
/// region result, the body counted as a region; 2^64 - 1 where there are more. It takes no memory.
pub fn values(lambda: &Lambda) -> u64
    ensures { result ≡ saturated (region_values lambda.now.body) }
{
    values_of_region(&lambda.body)
}

#[cycle(values)]
fn values_of_region(region: &Region) -> u64
    ensures { result ≡ saturated (region_values region.now) }
{
    let mut total = (region.args.len() as u64)
        .saturating_add(region.results.len() as u64)
        .saturating_add(1);
    for node in &region.nodes {
        total = total.saturating_add(values_of_node(node));
    }
    total
}

#[cycle(values)]
fn values_of_node(node: &Node) -> u64
    ensures { result ≡ saturated (node_values node.now) }
{
    let mut total = (outputs(node) as u64).saturating_add(1);
    for region in &node.regions {
        total = total.saturating_add(values_of_region(region));
    }
    total
}

/// How many outputs a node has.
pub fn outputs(node: &Node) -> usize
    ensures { result ≡ length (output_kinds node.now) }
{
    match node.op {
        Op::Apply(_) => 3,
        Op::Get => 2,
        Op::Gamma => match node.regions.first() {
            Some(region) => region.results.len(),
            None => 0,
        },
        Op::Theta => match node.regions.first() {
            Some(region) => region.args.len(),
            None => 0,
        },
        _ => 1,
    }
}
