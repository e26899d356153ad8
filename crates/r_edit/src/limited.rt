//! Counts that stop where a limit is passed.

ghost use Rattle.std.specs.Prelude.{◌≡◌, ◌-◌, length};
ghost use Rattle.g_graph.specs.Count.{region_values, node_values};
ghost use Rattle.g_graph.specs.Ids.{node_ids};
ghost use Rattle.g_graph.specs.Signatures.{output_kinds};
ghost use Rattle.r_edit.specs.Numbering.{node_count};

use g_graph::{Node, Op, Region, op_outputs};

/// What is left of so many values without those of the region; 0 where it has more. It takes no
/// memory, and stops where nothing is left.
#[cycle(values)]
pub fn values_left(region: &Region, most: u64) -> u64
    ensures { result ≡ most - region_values region.now }
{
    let own = (region.args.len() as u64)
        .saturating_add(region.results.len() as u64)
        .saturating_add(1);
    let mut left = most.saturating_sub(own);
    for node in &region.nodes {
        if left == 0 {
            return 0;
        }
        left = node_values_left(node, left);
    }
    left
}

#[cycle(values)]
fn node_values_left(node: &Node, most: u64) -> u64
    ensures { result ≡ most - node_values node.now }
{
    let own = (outputs(node) as u64).saturating_add(1);
    let mut left = most.saturating_sub(own);
    for region in &node.regions {
        if left == 0 {
            return 0;
        }
        left = values_left(region, left);
    }
    left
}

fn outputs(node: &Node) -> usize
    ensures { result ≡ length (output_kinds node.now) }
{
    match (node.op, node.regions.first()) {
        (Op::Gamma, Some(region)) => region.results.len(),
        (Op::Theta, Some(region)) => region.args.len(),
        (op, _) => op_outputs(op).len(),
    }
}

/// What is left of so many numbers without those of the region's nodes, at any depth; 0 where it
/// has more. It takes no memory, and stops where nothing is left.
#[cycle(numbers)]
pub fn numbers_left(region: &Region, most: u64) -> u64
    ensures { result ≡ most - node_count region.now }
{
    let mut left = most;
    for node in &region.nodes {
        if left == 0 {
            return 0;
        }
        left = node_numbers_left(node, left);
    }
    left
}

#[cycle(numbers)]
fn node_numbers_left(node: &Node, most: u64) -> u64
    ensures { result ≡ most - length (node_ids node.now) }
{
    let mut left = most.saturating_sub(1);
    for region in &node.regions {
        if left == 0 {
            return 0;
        }
        left = numbers_left(region, left);
    }
    left
}
