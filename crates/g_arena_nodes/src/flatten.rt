//! The list of the nodes of a region.

ghost use Rattle.std.specs.Prelude.{◌≡◌, ◌==◌, ◌+◌, ◌*◌, ◌≤◌, ◌++◌, ℕ, IfOk, OnOk, if◌then◌else◌, map, nat_eq, slice_get};
ghost use Rattle.indexmap.specs.IndexMap.{get};
ghost use Rattle.g_graph.specs.Plain.{id_of, regions_of};
ghost use Rattle.g_graph.specs.Signatures.{joined, kind_of, outputs_of, output_kinds, result_kinds};
ghost use Rattle.g_graph.specs.WellFormed.{kinds_of};
ghost use Rattle.g_graph.specs.Count.{region_values, node_values, regions_values};
ghost use Rattle.g_arena_def.specs.Flat.{
  region_flat,
  body_place,
  in_region,
  in_node,
  in_regions,
};
ghost use Rattle.g_arena_def.specs.Size.{region_inputs, node_inputs, regions_inputs};
ghost use Rattle.g_arena_nodes.specs.Listed.{first_kinds, kind_at, kinds_by, node_row};

use crate::rows::{Row, RowRegion, Rows, look_twice, place_of};
use base::{NoMemory, Steps};
use g_arena_def::Place;
use g_graph::{Kind, Node, Op, Origin, Region, first_args, op_outputs};
use indexmap::IndexMap;
use smallvec::SmallVec;
use std::alloc::Global;
use std::sync::ledger::Ledger;

/// The body of a lambda and its nodes in pre-order. It costs two looks for each value of the lambda
/// and each input of a node. NoMemory also where a node has more than 4294967296 regions.
pub fn rows_of<L: Ledger>(
    alloc: Global,
    body: &Region,
    looks: &mut Steps<L>,
) -> Result<Rows, NoMemory>
    ensures body { IfOk result (λ r. r.body ≡ region_flat body.now) }
    ensures nodes { IfOk result (λ r. r.nodes.items ≡ in_region body_place body.now) }
    ensures cost { OnOk result (looks.new
        ≡ looks.old + 2 * (region_values body.now + region_inputs body.now)) }
    ensures looks { looks.new ≤ looks.old + 2 * (region_values body.now + region_inputs body.now) }
{
    let mut nodes = Vec::new(alloc);
    let place = Place {
        node: None,
        region: 0,
    };
    drop(list_region(alloc, body, place, &mut nodes, looks)?);
    let body = region_row(alloc, body)?;
    Ok(Rows { body, nodes })
}

// The nodes of the region at a place come to the rows. The answer are the kinds of its results.
#[cycle(rows)]
fn list_region<L: Ledger>(
    alloc: Global,
    region: &Region,
    home: Place,
    rows: &mut Vec<Row>,
    looks: &mut Steps<L>,
) -> Result<Vec<Option<Kind>>, NoMemory>
    ensures rows { OnOk result (rows.new.items ≡ rows.old.items ++ in_region home region.now) }
    ensures kinds { IfOk result (λ kinds. kinds.items ≡ result_kinds region.now) }
    ensures cost { OnOk result (looks.new
        ≡ looks.old + 2 * (region_values region.now + region_inputs region.now)) }
    ensures looks { looks.new ≤ looks.old + 2 * (region_values region.now + region_inputs region.now) }
{
    look_twice(looks, 1);
    look_twice(looks, region.args.len());
    look_twice(looks, region.results.len());
    let mut outputs = IndexMap::new(alloc);
    for node in &region.nodes {
        let kinds = list_node(alloc, node, home, rows, looks)?;
        add_outputs(&mut outputs, node, kinds)?;
    }
    let found = region_kinds(alloc, region, &outputs)?;
    Ok(found)
}

// A node in the region at a place comes to the rows, and then the nodes of its regions. The answer
// are the kinds of its outputs.
#[cycle(rows)]
fn list_node<L: Ledger>(
    alloc: Global,
    node: &Node,
    home: Place,
    rows: &mut Vec<Row>,
    looks: &mut Steps<L>,
) -> Result<Vec<Option<Kind>>, NoMemory>
    ensures rows { OnOk result (rows.new.items ≡ rows.old.items ++ in_node home node.now) }
    ensures kinds { IfOk result (λ kinds. kinds.items ≡ output_kinds node.now) }
    ensures cost { OnOk result (looks.new
        ≡ looks.old + 2 * (node_values node.now + node_inputs node.now)) }
    ensures looks { looks.new ≤ looks.old + 2 * (node_values node.now + node_inputs node.now) }
{
    look_twice(looks, 1);
    look_twice(looks, node.inputs.len());
    let at = rows.len();
    rows.push(new_row(alloc, home))?;
    let kinds = list_regions(alloc, &node.regions, node.id, rows, looks)?;
    let outputs = outputs_of(alloc, node.op, &node.regions, kinds)?;
    look_twice(looks, outputs.len());
    rows[at] = row_of(alloc, node, home, &outputs)?;
    Ok(outputs)
}

// The nodes of the regions of a node come to the rows. The answer are the kinds of the results of
// the first.
#[cycle(rows)]
fn list_regions<L: Ledger>(
    alloc: Global,
    regions: &[Region],
    node: u32,
    rows: &mut Vec<Row>,
    looks: &mut Steps<L>,
) -> Result<Vec<Option<Kind>>, NoMemory>
    ensures rows { OnOk result (rows.new.items
        ≡ rows.old.items ++ in_regions node 0 (regions_of regions.now)) }
    ensures kinds { IfOk result (λ kinds. kinds.items ≡ first_kinds (regions_of regions.now)) }
    ensures cost { OnOk result (looks.new
        ≡ looks.old + 2 * (regions_values (regions_of regions.now) + regions_inputs (regions_of regions.now))) }
    ensures looks { looks.new
        ≤ looks.old + 2 * (regions_values (regions_of regions.now) + regions_inputs (regions_of regions.now)) }
{
    let mut first = Vec::new(alloc);
    for (k, region) in regions.iter().enumerate() {
        let place = place_of(node, k)?;
        let kinds = list_region(alloc, region, place, rows, looks)?;
        first = earlier(k, first, kinds);
    }
    Ok(first)
}

// The first kinds, once those of so many regions are there.
fn earlier(count: usize, first: Vec<Option<Kind>>, kinds: Vec<Option<Kind>>) -> Vec<Option<Kind>>
    ensures { result.items ≡ (if count == 0 then kinds.items else first.items) }
{
    if count == 0 { kinds } else { first }
}

// The kinds of the outputs of a node, the results of whose first region have these kinds.
fn outputs_of(
    alloc: Global,
    op: Op,
    regions: &[Region],
    first: Vec<Option<Kind>>,
) -> Result<Vec<Option<Kind>>, NoMemory>
    requires { first.items ≡ first_kinds (regions_of regions.now) }
    ensures { IfOk result (λ kinds. kinds.items ≡ outputs_of op (regions_of regions.now)) }
{
    match op {
        Op::Gamma => Ok(first),
        Op::Theta => all_there(alloc, first_args(regions)),
        op => all_there(alloc, op_outputs(op)),
    }
}

// These kinds, all of which are there.
fn all_there(alloc: Global, kinds: &[Kind]) -> Result<Vec<Option<Kind>>, NoMemory>
    ensures { IfOk result (λ found. found.items ≡ map Some kinds.now) }
{
    let mut found = Vec::new(alloc);
    for kind in kinds {
        found.push(Some(*kind))?;
    }
    Ok(found)
}

// The outputs of a node come to those of the nodes before it, and count in place of those of a node
// with its number.
fn add_outputs(
    outputs: &mut IndexMap<u32, Vec<Option<Kind>>>,
    node: &Node,
    kinds: Vec<Option<Kind>>,
) -> Result<(), NoMemory>
    ensures { OnOk result ((n p : ℕ) → kind_at (get nat_eq outputs.new n) p
        ≡ (if id_of node.now == n then joined (slice_get kinds.items p) else kind_at (get nat_eq outputs.old n) p)) }
{
    outputs.insert(node.id, kinds)?;
    Ok(())
}

// The kinds of the results of a region whose nodes have these outputs.
fn region_kinds(
    alloc: Global,
    region: &Region,
    outputs: &IndexMap<u32, Vec<Option<Kind>>>,
) -> Result<Vec<Option<Kind>>, NoMemory>
    ensures { IfOk result (λ kinds. kinds.items
        ≡ kinds_by (λ n p. kind_at (get nat_eq outputs.now n) p) region.now) }
{
    let kinds = kinds_in(alloc, &region.args, outputs, &region.results)?;
    Ok(kinds)
}

// The kinds of origins where these arguments and outputs are there.
fn kinds_in(
    alloc: Global,
    args: &[Kind],
    outputs: &IndexMap<u32, Vec<Option<Kind>>>,
    origins: &[Origin],
) -> Result<Vec<Option<Kind>>, NoMemory>
    ensures { IfOk result (λ kinds. kinds.items
        ≡ map (kind_of args.now (λ n p. kind_at (get nat_eq outputs.now n) p)) origins.now) }
{
    let mut kinds = Vec::new(alloc);
    for origin in origins {
        kinds.push(kind_in(args, outputs, *origin))?;
    }
    Ok(kinds)
}

fn kind_in(
    args: &[Kind],
    outputs: &IndexMap<u32, Vec<Option<Kind>>>,
    origin: Origin,
) -> Option<Kind>
    ensures { result ≡ kind_of args.now (λ n p. kind_at (get nat_eq outputs.now n) p) origin }
{
    match origin {
        Origin::Arg(index) => args.get(index as usize).copied(),
        Origin::Out { node, port } => match outputs.get(&node) {
            Some(kinds) => port_kind(kinds, port as usize),
            None => None,
        },
    }
}

fn port_kind(kinds: &[Option<Kind>], port: usize) -> Option<Kind>
    ensures { result ≡ joined (slice_get kinds.now port) }
{
    match kinds.get(port) {
        Some(kind) => *kind,
        None => None,
    }
}

// What stands for a node until its regions are in the list.
fn new_row(alloc: Global, home: Place) -> Row {
    Row {
        id: 0,
        op: Op::Undef,
        inputs: SmallVec::new(alloc),
        outputs: Vec::new(alloc),
        regions: Vec::new(alloc),
        home,
    }
}

// The row of a node with outputs of these kinds.
fn row_of(
    alloc: Global,
    node: &Node,
    home: Place,
    outputs: &[Option<Kind>],
) -> Result<Row, NoMemory>
    ensures { IfOk result (λ row. row ≡ node_row home node.now outputs.now) }
{
    let inputs = SmallVec::from_slice(alloc, node.inputs.as_slice())?;
    let outputs = kinds_of(alloc, outputs)?;
    let regions = region_rows(alloc, &node.regions)?;
    Ok(Row {
        id: node.id,
        op: node.op,
        inputs,
        outputs,
        regions,
        home,
    })
}

// The kinds that are there.
fn kinds_of(alloc: Global, found: &[Option<Kind>]) -> Result<Vec<Kind>, NoMemory>
    ensures { IfOk result (λ kinds. kinds.items ≡ kinds_of found.now) }
{
    let mut kinds = Vec::new(alloc);
    for entry in found {
        if let Some(kind) = entry {
            kinds.push(*kind)?;
        }
    }
    Ok(kinds)
}

// What a list has of each of these regions.
fn region_rows(alloc: Global, regions: &[Region]) -> Result<Vec<RowRegion>, NoMemory>
    ensures { IfOk result (λ rows. rows.items ≡ map region_flat regions.now) }
{
    let mut rows = Vec::new(alloc);
    for region in regions {
        rows.push(region_row(alloc, region)?)?;
    }
    Ok(rows)
}

// What a list has of a region.
fn region_row(alloc: Global, region: &Region) -> Result<RowRegion, NoMemory>
    ensures { IfOk result (λ row. row ≡ region_flat region.now) }
{
    let args = Vec::from_slice(alloc, region.args.as_slice())?;
    let results = Vec::from_slice(alloc, region.results.as_slice())?;
    Ok(RowRegion { args, results })
}
