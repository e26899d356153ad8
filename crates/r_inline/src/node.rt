//! The rule at a node.

ghost use Rattle.std.specs.Prelude.{◌≡◌, ◌+◌, IfOk, IfSome, option_map};
ghost use Rattle.g_graph.specs.WellFormed.{IsWellFormed};
ghost use Rattle.r_edit.specs.Numbering.{node_count};
ghost use Rattle.r_inline.specs.Rule.{node_inlined};

use crate::inputs::calls;
use crate::room::may_inline;
use base::NoMemory;
use g_graph::{ArgsToInputs, Lambda, Op, Origin, redirect_region};
use r_edit::{Numbered, copy_numbered};
use std::alloc::Global;

/// What comes in the place of a node with this op and these inputs, in a lambda of so many values
/// whose next node has the number `next`: the callee's body with numbers from `next` on, where its
/// arguments are the inputs, and the number after those. None where the rule does not apply to it.
/// `NoMemory` only where the allocator has none. It takes time n log n in the callee.
pub fn inlined_node(
    alloc: Global,
    values: u64,
    next: u32,
    op: Op,
    inputs: &[Origin],
    callee: &Lambda,
) -> Result<Option<Numbered>, NoMemory>
    requires callee { IsWellFormed callee.now }
    ensures region { IfOk result (λ made. option_map (λ it. it.region) made
        ≡ node_inlined values next callee.now op inputs.now) }
    ensures next { IfOk result (λ made. IfSome made (λ it.
        it.next ≡ next + node_count callee.now.body)) }
{
    if may_inline(values, next, callee) && calls(op, inputs, callee) {
        let mut copy = copy_numbered(alloc, &callee.body, next)?;
        redirect_region(&mut copy.region, &ArgsToInputs { inputs });
        Ok(Some(copy))
    } else {
        Ok(None)
    }
}
