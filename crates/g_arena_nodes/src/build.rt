//! The region of a list of nodes.

ghost use Rattle.std.specs.Prelude.{◌≡◌, ◌+◌, ◌*◌, ◌≤◌, [], IfOk, OnOk};
ghost use Rattle.g_graph.specs.Plain.{RegionTree};
ghost use Rattle.g_graph.specs.Count.{region_values};
ghost use Rattle.g_arena_def.specs.Flat.{same_node, same_place};
ghost use Rattle.g_arena_def.specs.Size.{region_inputs};
ghost use Rattle.g_arena_nodes.specs.Made.{
  IsListOf,
  HasNumbersOnce,
  first_in,
  is_first_in,
  after_first,
  taken,
  left,
  region_made,
  regions_made,
  regions_left,
  node_made,
  node_left,
  all_made,
  part_size,
  parts_size,
  outputs_count,
  row_size,
  rows_size,
};

use crate::rows::{Row, RowRegion, Rows, look_twice, place_of};
use base::{NoMemory, Steps};
use g_arena_def::Place;
use g_graph::{Node, Op, Region, op_outputs};
use std::alloc::Global;
use std::collections::VecDeque;
use std::sync::ledger::Ledger;

/// The body of the lambda of a list, if it is the list of one, in which no number stands twice. It
/// costs two looks for each value of the lambda and each input of a node.
pub fn region_of<L: Ledger>(
    alloc: Global,
    rows: Rows,
    looks: &mut Steps<L>,
) -> Result<Region, NoMemory>
    requires { HasNumbersOnce rows.nodes.items }
    ensures made { (r : RegionTree) → IsListOf rows.body rows.nodes.items r → IfOk result (λ made. made ≡ r) }
    ensures cost { (r : RegionTree) → IsListOf rows.body rows.nodes.items r
        → OnOk result (looks.new ≡ looks.old + 2 * (region_values r + region_inputs r)) }
    ensures looks { (r : RegionTree) → IsListOf rows.body rows.nodes.items r
        → looks.new ≤ looks.old + 2 * (region_values r + region_inputs r) }
{
    let Rows { body, nodes } = rows;
    look_at_part(&body, looks);
    let mut made = nodes_made(alloc, nodes, looks)?;
    let place = Place {
        node: None,
        region: 0,
    };
    let region = region_at(alloc, body, place, &mut made)?;
    Ok(region)
}

// The nodes of these rows that are in no region of another, in pre-order.
fn nodes_made<L: Ledger>(
    alloc: Global,
    mut rows: Vec<Row>,
    looks: &mut Steps<L>,
) -> Result<VecDeque<(Place, Node)>, NoMemory>
    ensures made { IfOk result (λ made. made.items ≡ all_made rows.items []) }
    ensures cost { OnOk result (looks.new ≡ looks.old + 2 * rows_size rows.items) }
    ensures looks { looks.new ≤ looks.old + 2 * rows_size rows.items }
{
    let mut made = VecDeque::new(alloc);
    while let Some(row) = rows.pop() {
        let home = home_of(&row);
        look_at_row(&row, looks);
        let node = node_of(alloc, row, &mut made)?;
        made.push_front((home, node))?;
    }
    Ok(made)
}

// The place of a row.
fn home_of(row: &Row) -> Place
    ensures { result ≡ row.now.home }
{
    row.home
}

// Counts the looks of a row.
fn look_at_row<L: Ledger>(row: &Row, looks: &mut Steps<L>)
    ensures { looks.new ≡ looks.old + 2 * row_size row.now }
{
    look_twice(looks, 1);
    look_twice(looks, row.inputs.len());
    look_twice(looks, outputs_count(row.op, &row.regions));
    look_at_parts(&row.regions, looks);
}

// Counts the looks of the regions of a row.
fn look_at_parts<L: Ledger>(parts: &[RowRegion], looks: &mut Steps<L>)
    ensures { looks.new ≡ looks.old + 2 * parts_size parts.now }
{
    for part in parts {
        look_at_part(part, looks);
    }
}

// Counts the looks of what a row has of a region.
fn look_at_part<L: Ledger>(part: &RowRegion, looks: &mut Steps<L>)
    ensures { looks.new ≡ looks.old + 2 * part_size part.now }
{
    look_twice(looks, 1);
    look_twice(looks, part.args.len());
    look_twice(looks, part.results.len());
}

// The node of a row, which takes the nodes of its regions.
fn node_of(alloc: Global, row: Row, made: &mut VecDeque<(Place, Node)>) -> Result<Node, NoMemory>
    ensures node { IfOk result (λ node. node ≡ node_made row made.old.items) }
    ensures left { OnOk result (made.new.items ≡ node_left row made.old.items) }
{
    let Row {
        id,
        op,
        inputs,
        regions,
        ..
    } = row;
    let regions = regions_of(alloc, id, regions, made)?;
    Ok(Node {
        id,
        op,
        inputs,
        regions,
    })
}

// How many outputs a node of an op with these regions has.
fn outputs_count(op: Op, regions: &[RowRegion]) -> usize
    ensures { result ≡ outputs_count op regions.now }
{
    match op {
        Op::Gamma => match regions.first() {
            Some(region) => region.results.len(),
            None => 0,
        },
        Op::Theta => match regions.first() {
            Some(region) => region.args.len(),
            None => 0,
        },
        op => op_outputs(op).len(),
    }
}

// The regions of a node.
fn regions_of(
    alloc: Global,
    node: u32,
    parts: Vec<RowRegion>,
    made: &mut VecDeque<(Place, Node)>,
) -> Result<Vec<Region>, NoMemory>
    ensures regions { IfOk result (λ regions. regions.items ≡ regions_made node 0 parts.items made.old.items) }
    ensures left { OnOk result (made.new.items ≡ regions_left node 0 parts.items made.old.items) }
{
    let mut regions = Vec::new(alloc);
    for part in parts {
        let place = place_of(node, regions.len())?;
        let region = region_at(alloc, part, place, made)?;
        regions.push(region)?;
    }
    Ok(regions)
}

// The region at a place, which takes its nodes.
fn region_at(
    alloc: Global,
    part: RowRegion,
    home: Place,
    made: &mut VecDeque<(Place, Node)>,
) -> Result<Region, NoMemory>
    ensures region { IfOk result (λ region. region ≡ region_made part home made.old.items) }
    ensures left { OnOk result (made.new.items ≡ left home made.old.items) }
{
    let RowRegion { args, results } = part;
    let nodes = take_nodes(alloc, home, made)?;
    Ok(Region {
        args,
        nodes,
        results,
    })
}

// The nodes that stand at the start in the region at a place are taken.
fn take_nodes(
    alloc: Global,
    home: Place,
    made: &mut VecDeque<(Place, Node)>,
) -> Result<Vec<Node>, NoMemory>
    ensures taken { IfOk result (λ nodes. nodes.items ≡ taken home made.old.items) }
    ensures left { OnOk result (made.new.items ≡ left home made.old.items) }
{
    let mut nodes = Vec::new(alloc);
    while let Some(node) = next_in(home, made) {
        nodes.push(node)?;
    }
    Ok(nodes)
}

// The first node is taken, if it stands in the region at a place.
fn next_in(home: Place, made: &mut VecDeque<(Place, Node)>) -> Option<Node>
    ensures node { result ≡ first_in home made.old.items }
    ensures left { made.new.items ≡ after_first home made.old.items }
{
    if !is_first_in(home, made) {
        return None;
    }
    match made.pop_front() {
        Some((_, node)) => Some(node),
        None => None,
    }
}

// Whether the first node stands in the region at a place.
fn is_first_in(home: Place, made: &VecDeque<(Place, Node)>) -> bool
    ensures { result ≡ is_first_in home made.now.items }
{
    match made.front() {
        Some((place, _)) => same_place(*place, home),
        None => false,
    }
}

// Whether two places are the same.
fn same_place(a: Place, b: Place) -> bool
    ensures { result ≡ same_place a b }
{
    same_node(a.node, b.node) && a.region == b.region
}

fn same_node(a: Option<u32>, b: Option<u32>) -> bool
    ensures { result ≡ same_node a b }
{
    match (a, b) {
        (None, None) => true,
        (Some(a), Some(b)) => a == b,
        _ => false,
    }
}
