//! The rule at a node.

ghost use Rattle.std.specs.Prelude.{◌≡◌, ℕ, IfOk};
ghost use Rattle.g_graph.specs.declared.op.Op.TheVariants.{Theta};
ghost use Rattle.g_graph.specs.Plain.{node, regions_of};
ghost use Rattle.r_invert.specs.Rule.{in_place};
ghost use Rattle.r_invert.specs.Sound.{AreSound};

use crate::part::regions_part;
use crate::room::only_may;
use crate::rule::with_inputs;
use base::NoMemory;
use g_graph::{Op, Origin, Region};
use std::alloc::Global;

/// What comes in the place of a node with this op, inputs and regions, in a lambda of so many
/// values whose next node has the number `next`: a region whose nodes have the numbers from `next`
/// on, and whose results become the node's outputs. None where the rule does not apply to the node,
/// whatever its number. The regions are those of a node of a well-formed lambda. `NoMemory` only
/// where the allocator has none. It takes time n log n in the regions.
pub fn inverted_node(
    alloc: Global,
    values: u64,
    next: u32,
    op: Op,
    inputs: &[Origin],
    regions: &[Region],
) -> Result<Option<Region>, NoMemory>
    requires sound { AreSound op (regions_of regions.now) }
    ensures { IfOk result (λ made. (id : ℕ) →
        made ≡ in_place values next (node id op inputs.now (regions_of regions.now))) }
{
    match op {
        Op::Theta => inverted_loop(alloc, values, next, inputs, regions),
        _ => Ok(None),
    }
}

// That of a loop.
fn inverted_loop(
    alloc: Global,
    values: u64,
    next: u32,
    inputs: &[Origin],
    regions: &[Region],
) -> Result<Option<Region>, NoMemory>
    requires sound { AreSound Theta (regions_of regions.now) }
    ensures { IfOk result (λ made. (id : ℕ) →
        made ≡ in_place values next (node id Theta inputs.now (regions_of regions.now))) }
{
    if !only_may(regions, values, next) {
        return Ok(None);
    }
    let mut part = regions_part(alloc, regions, next)?;
    Ok(Some(with_inputs(alloc, &mut part, inputs)))
}
