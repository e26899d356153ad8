//! The depths of the functions of a list, which is the call of the crate.

ghost use Rattle.std.specs.Prelude.{◌≡◌, ◌<◌, ◌^◌, length, IfOk};
ghost use Rattle.g_pass_order.specs.Calls.{CallsAreKnown};
ghost use Rattle.cc_view.specs.Depths.{IsDepth};
ghost use Rattle.cc_view.specs.Turns.{AreTurns};

use crate::by_rank::by_rank;
use crate::calling::depth_of;
use base::NoMemory;
use call_order::laws::{callee_ranks_below, units_are_mutual};
use g_graph::Lambda;
use g_pass_order::{Order, order};
use std::alloc::Global;

// The functions of the list, callees first.
fn turns(alloc: Global, lambdas: &[Lambda]) -> Result<Vec<u32>, NoMemory>
    requires few { length lambdas.now < 2 ^ 32 }
    requires known { CallsAreKnown lambdas.now }
    ensures { IfOk result (λ turns. AreTurns lambdas.now turns.items) }
{
    callee_ranks_below();
    units_are_mutual();
    let Order { ranks, deps } = order(alloc, lambdas)?;
    drop(deps);
    let turns = by_rank(alloc, ranks.as_slice())?;
    Ok(turns)
}

// The depths of the functions, found in turn. Until then a function has none, so one that calls
// lead back to, and that finds such a function there, gets none.
fn filled(
    alloc: Global,
    lambdas: &[Lambda],
    frames: &[u32],
    turns: &[u32],
) -> Result<Vec<Option<u64>>, NoMemory>
    requires few { length lambdas.now < 2 ^ 32 }
    requires framed { length frames.now ≡ length lambdas.now }
    requires turns { AreTurns lambdas.now turns.now }
    ensures { IfOk result (λ depths. IsDepth lambdas.now frames.now depths.items) }
{
    let mut depths: Vec<Option<u64>> = vec![in alloc; None; lambdas.len()]?;
    for turn in turns {
        let function = *turn as usize;
        let depth = depth_of(&lambdas[function], frames[function], depths.as_slice());
        depths[function] = depth;
    }
    Ok(depths)
}

/// The depth in bytes of each function of a list: its frame and the greatest depth of those that it
/// calls; `None` where calls lead from it to a function that they lead back to. `frames` has the
/// bytes of the frame of each function. Each function that is called is there, and there are fewer
/// than 2^32. `NoMemory` only where the allocator has none.
pub fn depths(
    alloc: Global,
    lambdas: &[Lambda],
    frames: &[u32],
) -> Result<Vec<Option<u64>>, NoMemory>
    requires few { length lambdas.now < 2 ^ 32 }
    requires known { CallsAreKnown lambdas.now }
    requires framed { length frames.now ≡ length lambdas.now }
    ensures { IfOk result (λ depths. IsDepth lambdas.now frames.now depths.items) }
{
    let turns = turns(alloc, lambdas)?;
    filled(alloc, lambdas, frames, turns.as_slice())
}
