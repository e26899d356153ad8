//! What the change needs, made before it: the node outside, and lists that are one longer.

ghost use Rattle.std.specs.Prelude.{◌≡◌, ◌<◌, ◌^◌, ◌++◌, [], ◌∷◌, IfOk, length, IsTrue};
ghost use Rattle.g_graph.specs.Plain.{regions_of, args_of};
ghost use Rattle.g_graph.specs.Replace.{node_redirected};
ghost use Rattle.g_graph.specs.Splice.{args_to_inputs};
ghost use Rattle.r_push.specs.Edit.{has_no_regions, longer, all_longer};
ghost use Rattle.r_push.specs.Rule.{can_all_count};

use base::NoMemory;
use g_graph::{ArgsToInputs, Kind, Node, Origin, Region, redirect_origins};
use smallvec::SmallVec;
use std::alloc::Global;

/// The node, whose arguments are these origins outside; it has no regions.
pub fn outside(alloc: Global, inner: &Node, outer: &[Origin]) -> Result<Node, NoMemory>
    requires { IsTrue (has_no_regions inner.now) }
    ensures { IfOk result (λ y. y ≡ node_redirected (args_to_inputs outer.now) inner.now) }
{
    let mut inputs = SmallVec::from_slice(alloc, inner.inputs.as_slice())?;
    redirect_origins(inputs.as_mut_slice(), &ArgsToInputs { inputs: outer });
    Ok(Node {
        id: inner.id,
        op: inner.op,
        inputs,
        regions: Vec::new(alloc),
    })
}

/// These inputs, and the first output of a node after them.
pub fn more_inputs(
    alloc: Global,
    inputs: &[Origin],
    last: Origin,
) -> Result<SmallVec<Origin, 4>, NoMemory>
    ensures { IfOk result (λ more. more.items ≡ inputs.now ++ last ∷ []) }
{
    let mut more = SmallVec::from_slice(alloc, inputs)?;
    more.push(last)?;
    Ok(more)
}

/// For each of these regions its lists, one longer, and no nodes.
pub fn longer_lists(alloc: Global, regions: &[Region], loops: bool) -> Result<Vec<Region>, NoMemory>
    requires { IsTrue (can_all_count (regions_of regions.now)) }
    ensures { IfOk result (λ lists. regions_of lists.items ≡
        all_longer loops (regions_of regions.now)) }
{
    let mut lists = Vec::with_capacity(alloc, regions.len())?;
    for region in regions {
        lists.push(longer(alloc, region, loops)?)?;
    }
    Ok(lists)
}

fn longer(alloc: Global, region: &Region, loops: bool) -> Result<Region, NoMemory>
    requires { length (args_of region.now) < 2 ^ 32 }
    ensures { IfOk result (λ lists. lists ≡ longer loops region.now) }
{
    let mut args = Vec::from_slice(alloc, &region.args)?;
    args.push(Kind::Value)?;
    let mut results = Vec::from_slice(alloc, &region.results)?;
    if loops {
        results.push(Origin::Arg(region.args.len() as u32))?;
    }
    Ok(Region {
        args,
        nodes: Vec::new(alloc),
        results,
    })
}
