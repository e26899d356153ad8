//! Copies of lambdas and of regions.

ghost use Rattle.std.specs.Prelude.{◌≡◌, IfOk};

use crate::{Lambda, Node, Object, Region};
use base::NoMemory;
use smallvec::SmallVec;
use std::alloc::Global;

/// A lambda equal to this one. It takes time linear in the lambda.
pub fn copy_of(alloc: Global, lambda: &Lambda) -> Result<Lambda, NoMemory>
    ensures { IfOk result (λ copy. copy ≡ lambda.now) }
{
    let objects = copy_objects(alloc, &lambda.objects)?;
    let body = copy_region(alloc, &lambda.body)?;
    Ok(Lambda {
        number: lambda.number,
        params: lambda.params,
        objects,
        body,
        next: lambda.next,
    })
}

fn copy_objects(alloc: Global, objects: &[Object]) -> Result<Vec<Object>, NoMemory>
    ensures { IfOk result (λ copy. copy.items ≡ objects.now) }
{
    let mut copy = Vec::with_capacity(alloc, objects.len())?;
    for object in objects {
        copy.push(copy_object(alloc, object)?)?;
    }
    Ok(copy)
}

fn copy_object(alloc: Global, object: &Object) -> Result<Object, NoMemory>
    ensures { IfOk result (λ copy. copy ≡ object.now) }
{
    let leaves = Vec::from_slice(alloc, &object.leaves)?;
    Ok(Object {
        size: object.size,
        leaves,
    })
}

/// A region equal to this one. It takes time linear in the region.
#[cycle(copies)]
pub fn copy_region(alloc: Global, region: &Region) -> Result<Region, NoMemory>
    ensures { IfOk result (λ copy. copy ≡ region.now) }
{
    let mut nodes = Vec::with_capacity(alloc, region.nodes.len())?;
    for node in &region.nodes {
        nodes.push(copy_node(alloc, node)?)?;
    }
    let args = Vec::from_slice(alloc, &region.args)?;
    let results = Vec::from_slice(alloc, &region.results)?;
    Ok(Region {
        args,
        nodes,
        results,
    })
}

#[cycle(copies)]
fn copy_node(alloc: Global, node: &Node) -> Result<Node, NoMemory>
    ensures { IfOk result (λ copy. copy ≡ node.now) }
{
    let mut regions = Vec::with_capacity(alloc, node.regions.len())?;
    for region in &node.regions {
        regions.push(copy_region(alloc, region)?)?;
    }
    let inputs = SmallVec::from_slice(alloc, node.inputs.as_slice())?;
    Ok(Node {
        id: node.id,
        op: node.op,
        inputs,
        regions,
    })
}
