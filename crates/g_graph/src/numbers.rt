//! The numbers of the nodes of a lambda, in pre-order.

ghost use Rattle.std.specs.Prelude.{◌≡◌, ◌++◌, IfOk, OnOk};
ghost use Rattle.g_graph.specs.Ids.{region_ids, node_ids};

use crate::{Lambda, Node, Region};
use base::NoMemory;
use std::alloc::Global;

/// The numbers of the lambda's nodes in pre-order: a node before the nodes of its regions. It takes
/// time linear in the lambda.
pub fn ids(alloc: Global, lambda: &Lambda) -> Result<Vec<u32>, NoMemory>
    ensures { IfOk result (λ all. all.items ≡ region_ids lambda.now.body) }
{
    region_ids(alloc, &lambda.body)
}

/// The numbers of the region's nodes in pre-order. It takes time linear in the region.
pub fn region_ids(alloc: Global, region: &Region) -> Result<Vec<u32>, NoMemory>
    ensures { IfOk result (λ all. all.items ≡ region_ids region.now) }
{
    let mut all = Vec::new(alloc);
    push_region(region, &mut all)?;
    Ok(all)
}

#[cycle(ids)]
fn push_region(region: &Region, all: &mut Vec<u32>) -> Result<(), NoMemory>
    ensures { OnOk result (all.new.items ≡ all.old.items ++ region_ids region.now) }
{
    for node in &region.nodes {
        push_node(node, all)?;
    }
    Ok(())
}

#[cycle(ids)]
fn push_node(node: &Node, all: &mut Vec<u32>) -> Result<(), NoMemory>
    ensures { OnOk result (all.new.items ≡ all.old.items ++ node_ids node.now) }
{
    all.push(node.id)?;
    for region in &node.regions {
        push_region(region, all)?;
    }
    Ok(())
}
