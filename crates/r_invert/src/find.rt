//! The loop that is inverted.

ghost use Rattle.std.specs.Prelude.{◌≡◌, ◌-◌, option_copied};
ghost use Rattle.g_graph.specs.Ids.{region_ids, node_ids};
ghost use Rattle.r_edit.specs.Found.{region_found, node_found};
ghost use Rattle.r_invert.specs.Edit.{loop_of, loop_at, new_in};

use crate::room::is_loop;
use g_graph::{Node, Region, node_at};

/// The first loop of this number, in pre-order, in the region or one nested in it, that may be
/// inverted in a lambda of so many values whose next node has the number `next`.
#[cycle(finds)]
pub fn find_loop(region: &Region, values: u64, next: u32, id: u32) -> Option<&Node>
    ensures { option_copied result ≡ region_found (loop_at values next id) region.now }
{
    if let Some(node) = loop_at(region, values, next, id) {
        return Some(node);
    }
    for node in &region.nodes {
        if let Some(found) = find_in_node(node, values, next, id) {
            return Some(found);
        }
    }
    None
}

#[cycle(finds)]
fn find_in_node(node: &Node, values: u64, next: u32, id: u32) -> Option<&Node>
    ensures { option_copied result ≡ node_found (loop_at values next id) node.now }
{
    for region in &node.regions {
        if let Some(found) = find_loop(region, values, next, id) {
            return Some(found);
        }
    }
    None
}

/// The loop of this number, where the region itself holds it and it may be inverted.
pub fn loop_at(region: &Region, values: u64, next: u32, id: u32) -> Option<&Node>
    ensures { option_copied result ≡ loop_at values next id region.now }
{
    match node_at(&region.nodes, id) {
        Some(node) => loop_of(node, values, next),
        None => None,
    }
}

fn loop_of(node: &Node, values: u64, next: u32) -> Option<&Node>
    ensures { option_copied result ≡ loop_of values next node.now }
{
    if is_loop(node, values, next) {
        Some(node)
    } else {
        None
    }
}

/// What is left of so many numbers without those of the region's nodes, at any depth, that are
/// `next` or greater.
#[cycle(counts)]
pub fn new_left(region: &Region, next: u32, most: u64) -> u64
    ensures { result ≡ most - new_in next (region_ids region.now) }
{
    let mut left = most;
    for node in &region.nodes {
        left = new_left_of(node, next, left);
    }
    left
}

#[cycle(counts)]
fn new_left_of(node: &Node, next: u32, most: u64) -> u64
    ensures { result ≡ most - new_in next (node_ids node.now) }
{
    let mut left = most;
    if node.id >= next {
        left = left.saturating_sub(1);
    }
    for region in &node.regions {
        left = new_left(region, next, left);
    }
    left
}
