//! A copy of a region under new numbers.

ghost use Rattle.std.specs.Prelude.{◌≡◌, ◌+◌, ◌<◌, ◌^◌, IfOk, map};
ghost use Rattle.std.specs.Ordering.{nat_cmp};
ghost use Rattle.std.specs.BTreeMap.{get};
ghost use Rattle.g_mean.specs.Copies.{IsClosed, renumbered, region_copied, node_moved};
ghost use Rattle.r_edit.specs.Numbering.{found_or_same, node_count, region_numbered};

use crate::numbers::{number_of, numbers_among};
use base::NoMemory;
use g_graph::{Node, Origin, Redirect, Region, redirect_origins, region_ids};
use smallvec::SmallVec;
use std::alloc::Global;
use std::collections::BTreeMap;

/// A copy of a region, and the number after those of its nodes.
#[derive(Debug, Drop)]
pub struct Numbered {
    pub region: Region,
    pub next: u32,
}

/// A copy of the region whose nodes have the numbers from `next` on, in pre-order; an origin names
/// the copy of the node that it named. `NoMemory` only where the allocator has none. It takes time
/// n log n in the region.
pub fn copy_numbered(alloc: Global, region: &Region, next: u32) -> Result<Numbered, NoMemory>
    requires closed { IsClosed region.now }
    requires numbers { next + node_count region.now < 2 ^ 32 }
    ensures copy { IfOk result (λ copy. copy.region ≡ region_numbered next region.now) }
    ensures next { IfOk result (λ copy. copy.next ≡ next + node_count region.now) }
{
    let ids = region_ids(alloc, region)?;
    let numbers = numbers_among(alloc, &ids, next)?;
    Ok(Numbered {
        region: copy_region(alloc, region, &numbers)?,
        next: next + ids.len() as u32,
    })
}

// Where an origin is found in a copy whose nodes have these numbers.
#[derive(Drop)]
struct Renumbered<'a> {
    numbers: &'a BTreeMap<u32, u32>,
}

impl Redirect for Renumbered<'_> {
    ghost redirected = { λ r. renumbered (found_or_same (get nat_cmp r.numbers.now)) };

    fn redirect(&self, origin: Origin) -> Origin {
        match origin {
            Origin::Arg(_) => origin,
            Origin::Out { node, port } => Origin::Out {
                node: number_of(self.numbers, node),
                port,
            },
        }
    }
}

// The copy whose nodes have these numbers, at any depth.
#[cycle(copies)]
fn copy_region(
    alloc: Global,
    region: &Region,
    numbers: &BTreeMap<u32, u32>,
) -> Result<Region, NoMemory>
    ensures { IfOk result (λ copy. copy ≡
        region_copied (found_or_same (get nat_cmp numbers.now)) region.now) }
{
    let mut nodes = Vec::with_capacity(alloc, region.nodes.len())?;
    for node in &region.nodes {
        nodes.push(copy_node(alloc, node, numbers)?)?;
    }
    let args = Vec::from_slice(alloc, &region.args)?;
    let results = copy_results(alloc, &region.results, numbers)?;
    Ok(Region {
        args,
        nodes,
        results,
    })
}

#[cycle(copies)]
fn copy_node(alloc: Global, node: &Node, numbers: &BTreeMap<u32, u32>) -> Result<Node, NoMemory>
    ensures { IfOk result (λ copy. copy ≡
        node_moved (renumbered (found_or_same (get nat_cmp numbers.now)))
        (found_or_same (get nat_cmp numbers.now)) node.now) }
{
    let mut regions = Vec::with_capacity(alloc, node.regions.len())?;
    for region in &node.regions {
        regions.push(copy_region(alloc, region, numbers)?)?;
    }
    let inputs = copy_inputs(alloc, node.inputs.as_slice(), numbers)?;
    Ok(Node {
        id: number_of(numbers, node.id),
        op: node.op,
        inputs,
        regions,
    })
}

fn copy_results(
    alloc: Global,
    results: &[Origin],
    numbers: &BTreeMap<u32, u32>,
) -> Result<Vec<Origin>, NoMemory>
    ensures { IfOk result (λ copy. copy.items ≡
        map (renumbered (found_or_same (get nat_cmp numbers.now))) results.now) }
{
    let mut copy = Vec::from_slice(alloc, results)?;
    redirect_origins(copy.as_mut_slice(), &Renumbered { numbers });
    Ok(copy)
}

fn copy_inputs(
    alloc: Global,
    inputs: &[Origin],
    numbers: &BTreeMap<u32, u32>,
) -> Result<SmallVec<Origin, 4>, NoMemory>
    ensures { IfOk result (λ copy. copy.items ≡
        map (renumbered (found_or_same (get nat_cmp numbers.now))) inputs.now) }
{
    let mut copy = SmallVec::from_slice(alloc, inputs)?;
    redirect_origins(copy.as_mut_slice(), &Renumbered { numbers });
    Ok(copy)
}
