//! The loop that is unrolled.

ghost use Rattle.std.specs.Prelude.{◌≡◌, ◌<◌, ◌+◌, ◌-◌, ◌^◌, nat_le, is_some, option_copied, IsTrue};
ghost use Rattle.base.specs.Limits.{most_loop_values};
ghost use Rattle.g_graph.specs.Count.{region_values};
ghost use Rattle.g_graph.specs.Plain.{regions_of};
ghost use Rattle.r_edit.specs.Found.{region_found, node_found};
ghost use Rattle.r_edit.specs.Numbering.{node_count};
ghost use Rattle.r_unroll.specs.Edit.{small_body, only_body, loop_body, loop_at};
ghost use Rattle.r_unroll.specs.Rule.{region_loops, node_loops, growth, may_unroll, unroll_here};

use base::MOST_LOOP_VALUES;
use g_graph::{Node, Op, Region, node_at};
use r_edit::{may_change_size, numbers_left, values_left};

/// The first loop of this number, in pre-order, in the region or one nested in it, that may be
/// unrolled in a lambda of so many values whose next node has the number `next`: its region.
#[cycle(finds)]
pub fn find_loop(region: &Region, values: u64, next: u32, id: u32) -> Option<&Region>
    ensures { option_copied result ≡ region_found (loop_at values next id) region.now }
{
    if let Some(body) = loop_at(region, values, next, id) {
        return Some(body);
    }
    for node in &region.nodes {
        if let Some(body) = find_in_node(node, values, next, id) {
            return Some(body);
        }
    }
    None
}

#[cycle(finds)]
fn find_in_node(node: &Node, values: u64, next: u32, id: u32) -> Option<&Region>
    ensures { option_copied result ≡ node_found (loop_at values next id) node.now }
{
    for region in &node.regions {
        if let Some(body) = find_loop(region, values, next, id) {
            return Some(body);
        }
    }
    None
}

/// The region of the loop of this number, where the region itself holds it and it may be unrolled.
pub fn loop_at(region: &Region, values: u64, next: u32, id: u32) -> Option<&Region>
    ensures { option_copied result ≡ loop_at values next id region.now }
{
    match node_at(&region.nodes, id) {
        Some(node) => loop_body(node, values, next),
        None => None,
    }
}

/// Whether the region itself holds a loop of this number that may be unrolled.
#[tactic(auto, using(crate::proofs::Counted::here_found))]
pub fn can_unroll(region: &Region, values: u64, next: u32, id: u32) -> bool
    ensures { result ≡ is_some (unroll_here values next id region.now) }
{
    match loop_at(region, values, next, id) {
        Some(_) => true,
        None => false,
    }
}

/// The region of this node, where it is a loop that may be unrolled.
pub fn loop_body(node: &Node, values: u64, next: u32) -> Option<&Region>
    ensures { option_copied result ≡ loop_body values next node.now }
{
    match node.op {
        Op::Theta => only_body(&node.regions, values, next),
        _ => None,
    }
}

/// The only one of these regions, where it may be unrolled as that of a loop.
#[tactic(auto, using(crate::proofs::Counted::only_body_none))]
pub fn only_body(regions: &[Region], values: u64, next: u32) -> Option<&Region>
    ensures { option_copied result ≡ only_body values next (regions_of regions.now) }
{
    if regions.len() != 1 {
        return None;
    }
    small_body(&regions[0], values, next)
}

fn small_body(region: &Region, values: u64, next: u32) -> Option<&Region>
    ensures { option_copied result ≡ small_body values next region.now }
{
    if may_unroll(region, values, next) {
        Some(region)
    } else {
        None
    }
}

// It takes no memory, and stops at what decides it.
fn may_unroll(region: &Region, values: u64, next: u32) -> bool
    ensures { result ≡ may_unroll values next region.now }
{
    is_small(region)
        && !region_loops(region)
        && has_numbers(region, next)
        && may_change_size(values, growth(region), 0)
}

fn is_small(region: &Region) -> bool
    ensures { result ≡ nat_le (region_values region.now) most_loop_values }
{
    values_left(region, MOST_LOOP_VALUES + 1) > 0
}

// Whether there is a number for each node that comes.
fn has_numbers(region: &Region, next: u32) -> bool
    ensures { result ≡ nat_le (next + 2 + node_count region.now) (2 ^ 32 - 1) }
{
    let numbers = u64::from(u32::MAX).saturating_sub(u64::from(next) + 1);
    numbers_left(region, numbers) > 0
}

// The values that come; it counts no more of the region than it may have.
fn growth(region: &Region) -> u128
    requires { IsTrue (nat_le (region_values region.now) most_loop_values) }
    ensures value { result ≡ growth region.now }
    ensures small { result < 2 ^ 127 }
{
    let own = MOST_LOOP_VALUES - values_left(region, MOST_LOOP_VALUES);
    u128::from(3 * (region.args.len() as u64) + 6 + own)
}

// Whether some node of the region, at any depth, is a loop.
#[cycle(loops)]
fn region_loops(region: &Region) -> bool
    ensures { result ≡ region_loops region.now }
{
    for node in &region.nodes {
        if node_loops(node) {
            return true;
        }
    }
    false
}

#[cycle(loops)]
fn node_loops(node: &Node) -> bool
    ensures { result ≡ node_loops node.now }
{
    if node.op == Op::Theta {
        return true;
    }
    for region in &node.regions {
        if region_loops(region) {
            return true;
        }
    }
    false
}
