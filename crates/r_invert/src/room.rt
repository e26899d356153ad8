//! Whether a loop may be inverted.

ghost use Rattle.std.specs.Prelude.{◌≡◌, ◌<◌, ◌^◌, ◌-◌, is_some};
ghost use Rattle.g_graph.specs.Plain.{regions_of};
ghost use Rattle.r_invert.specs.Edit.{values_counted, nodes_counted, growth_so, numbers_so, indexes_so, room_so, loop_parts, two_so, regions_so, ends_so, only_may, is_loop};

use crate::form::branches_so;
use g_graph::{Node, Op, Region};
use r_edit::{may_change_size, numbers_left, values_left};

/// More values than the region of a loop has, on any machine.
const MOST_VALUES: u64 = 1 << 60;

/// More numbers, and indexes, than there are.
const MOST_NUMBERS: u64 = 1 << 32;

/// Whether the node is a loop that may be inverted, in a lambda of so many values whose next node
/// has the number `next`. It takes no memory, and time linear in the loop.
pub fn is_loop(node: &Node, values: u64, next: u32) -> bool
    ensures { result ≡ is_loop values next node.now }
{
    match node.op {
        Op::Theta => only_may(&node.regions, values, next),
        _ => false,
    }
}

/// Whether these regions are those of a loop that may be inverted, in a lambda of so many values
/// whose next node has the number `next`. It takes no memory, and time linear in the regions.
#[tactic(auto, using(crate::proofs::Counted::only_one))]
pub fn only_may(regions: &[Region], values: u64, next: u32) -> bool
    ensures { result ≡ only_may values next (regions_of regions.now) }
{
    if regions.len() != 1 {
        return false;
    }
    may_invert(&regions[0], values, next)
}

// Whether a loop with this region may be inverted.
fn may_invert(region: &Region, values: u64, next: u32) -> bool
    ensures { result ≡ is_some (loop_parts values next region.now) }
{
    match region.nodes.last() {
        Some(last) => ends_so(region, last, values, next),
        None => false,
    }
}

fn ends_so(region: &Region, last: &Node, values: u64, next: u32) -> bool
    ensures { result ≡ ends_so values next region.now last.now }
{
    match last.op {
        Op::Gamma => regions_so(
            region,
            last.id,
            last.inputs.len(),
            &last.regions,
            values,
            next,
        ),
        _ => false,
    }
}

#[tactic(auto, using(crate::proofs::Counted::only_two))]
fn regions_so(
    region: &Region,
    id: u32,
    inputs: usize,
    regions: &[Region],
    values: u64,
    next: u32,
) -> bool
    ensures { result ≡ regions_so values next region.now id inputs (regions_of regions.now) }
{
    if regions.len() != 2 {
        return false;
    }
    two_so(region, id, inputs, &regions[0], &regions[1], values, next)
}

fn two_so(
    region: &Region,
    id: u32,
    inputs: usize,
    stop: &Region,
    go: &Region,
    values: u64,
    next: u32,
) -> bool
    ensures { result ≡ two_so values next region.now id inputs stop.now go.now }
{
    match region.results.split_first() {
        Some((predicate, variables)) => {
            branches_so(id, *predicate, variables, stop, go)
                && has_room(region, inputs, stop, go, values, next)
        }
        None => false,
    }
}

// Whether there is room for what comes.
fn has_room(
    region: &Region,
    inputs: usize,
    stop: &Region,
    go: &Region,
    values: u64,
    next: u32,
) -> bool
    ensures { result ≡ room_so values next region.now inputs stop.now go.now }
{
    let own = values_counted(region);
    own < MOST_VALUES
        && has_indexes(region, stop, go)
        && has_numbers(region, go, next)
        && may_change_size(
            values,
            growth(region, inputs, stop, go),
            1 + region.args.len() as u128 + u128::from(own),
        )
}

fn has_indexes(region: &Region, stop: &Region, go: &Region) -> bool
    ensures { result ≡ indexes_so region.now stop.now go.now }
{
    (stop.args.len() as u64) < MOST_NUMBERS
        && (go.args.len() as u64) < MOST_NUMBERS
        && (region.results.len() as u64).saturating_sub(1) < MOST_NUMBERS
}

// Whether there is a number for each node that comes.
fn has_numbers(region: &Region, go: &Region, next: u32) -> bool
    ensures { result ≡ numbers_so next region.now go.now }
{
    let own = nodes_counted(region);
    own < MOST_NUMBERS
        && u64::from(next) + (2 * own).saturating_sub(nodes_counted(go)) <= u64::from(u32::MAX)
}

// The values that come.
fn growth(region: &Region, inputs: usize, stop: &Region, go: &Region) -> u128
    ensures value { result ≡ growth_so region.now inputs stop.now go.now }
    ensures small { result < 2 ^ 127 }
{
    let results = region.results.len() as u128;
    let entries = stop.args.len() as u128;
    let others = go.args.len() as u128;
    let more = 2 * u128::from(values_counted(region))
        + 5
        + 3 * results.saturating_sub(1)
        + entries
        + 3 * others
        + inputs as u128;
    let fewer = u128::from(values_counted(go))
        + 7
        + 2 * region.args.len() as u128
        + 2 * results
        + 4 * stop.results.len() as u128
        + 2 * entries
        + others
        + go.results.len() as u128;
    more.saturating_sub(fewer)
}

fn values_counted(region: &Region) -> u64
    ensures value { result ≡ values_counted region.now }
    ensures small { result < 2 ^ 61 }
{
    MOST_VALUES - values_left(region, MOST_VALUES)
}

fn nodes_counted(region: &Region) -> u64
    ensures value { result ≡ nodes_counted region.now }
    ensures small { result < 2 ^ 33 }
{
    MOST_NUMBERS - numbers_left(region, MOST_NUMBERS)
}
