//! The order in which the lambdas of a list are optimised.

ghost use Rattle.std.specs.Prelude.{◌<◌, ◌^◌, length, IfOk};
ghost use Rattle.call_order.specs.Units.{call_lists};
ghost use Rattle.g_pass_order.specs.Calls.{CallsAreKnown, IsOrder};

use crate::answer::Order;
use crate::calls::calls;
use crate::deps::deps;
use base::NoMemory;
use call_order::{Units, units};
use g_graph::Lambda;
use std::alloc::Global;

/// The order of these lambdas, of which each one that is called is there; there are fewer than
/// 2^32. `NoMemory` only where the allocator has none. It takes time linear in the lambdas and
/// n log n in their calls.
pub fn order(alloc: Global, lambdas: &[Lambda]) -> Result<Order, NoMemory>
    requires few { length lambdas.now < 2 ^ 32 }
    requires known { CallsAreKnown lambdas.now }
    ensures { IfOk result
        (λ order. IsOrder lambdas.now order.ranks.items (call_lists order.deps.items)) }
{
    let calls = calls(alloc, lambdas)?;
    let Units { unit, rank } = units(alloc, calls.as_slice())?;
    let deps = deps(alloc, unit.as_slice(), calls.as_slice())?;
    Ok(Order { ranks: rank, deps })
}
