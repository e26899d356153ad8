//! The rule at a node.

ghost use Rattle.std.specs.Prelude.{◌≡◌, ◌<◌, ◌≤◌, ◌+◌, ◌^◌, IfOk, IfSome, option_map};
ghost use Rattle.base.specs.Limits.{most_loop_values};
ghost use Rattle.g_graph.specs.declared.op.Op.TheVariants.{Theta};
ghost use Rattle.g_graph.specs.Count.{region_values};
ghost use Rattle.g_graph.specs.Plain.{node, no_regions, region_then, regions_of};
ghost use Rattle.g_mean.specs.Copies.{IsClosed, AllClosed};
ghost use Rattle.r_edit.specs.Numbering.{node_count};
ghost use Rattle.r_unroll.specs.Edit.{loop_numbers};
ghost use Rattle.r_unroll.specs.Rule.{node_unrolled, unrolled};

use crate::find::only_body;
use crate::follow::follow;
use crate::turn::second_turn;
use base::NoMemory;
use g_graph::{Node, Op, Origin, Region, copy_region};
use smallvec::SmallVec;
use std::alloc::Global;

/// A loop that is unrolled, and how many new numbers it has.
#[derive(Drop)]
pub struct UnrolledNode {
    pub node: Node,
    pub taken: u32,
}

/// The node with this number, op, inputs and regions as the rule makes it, in a lambda of so many
/// values whose next node has the number `next`; none where the rule does not apply to it.
/// `NoMemory` only where the allocator has none. It takes time n log n in the regions.
#[tactic(auto, using(crate::proofs::Nodes::only_closed, crate::proofs::Nodes::only_small, crate::proofs::Nodes::only_numbers))]
pub fn unrolled_node(
    alloc: Global,
    values: u64,
    next: u32,
    id: u32,
    op: Op,
    inputs: &[Origin],
    regions: &[Region],
) -> Result<Option<UnrolledNode>, NoMemory>
    requires closed { AllClosed (regions_of regions.now) }
    ensures node { IfOk result (λ made. option_map (λ it. it.node) made
        ≡ node_unrolled values next (node id op inputs.now (regions_of regions.now))) }
    ensures taken { IfOk result (λ made. IfSome made (λ it.
        it.taken ≡ loop_numbers (regions_of regions.now))) }
{
    if op != Op::Theta {
        return Ok(None);
    }
    match only_body(regions, values, next) {
        Some(body) => Ok(Some(unrolled(alloc, next, id, inputs, body)?)),
        None => Ok(None),
    }
}

// The loop with this region, unrolled.
fn unrolled(
    alloc: Global,
    next: u32,
    id: u32,
    inputs: &[Origin],
    body: &Region,
) -> Result<UnrolledNode, NoMemory>
    requires closed { IsClosed body.now }
    requires small { region_values body.now ≤ most_loop_values }
    requires numbers { next + 2 + node_count body.now < 2 ^ 32 }
    ensures node { IfOk result (λ it. it.node
        ≡ node id Theta inputs.now (region_then (unrolled next body.now) no_regions)) }
    ensures taken { IfOk result (λ it. it.taken ≡ 2 + node_count body.now) }
{
    let turn = second_turn(alloc, body, next)?;
    let mut region = copy_region(alloc, body)?;
    follow(&mut region, turn.last, turn.results)?;
    let mut regions = Vec::with_capacity(alloc, 1)?;
    regions.push(region)?;
    Ok(UnrolledNode {
        node: Node {
            id,
            op: Op::Theta,
            inputs: SmallVec::from_slice(alloc, inputs)?,
            regions,
        },
        taken: turn.next - next,
    })
}
