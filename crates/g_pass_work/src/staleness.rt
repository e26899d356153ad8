//! Which functions are stale.

ghost use Rattle.std.specs.Prelude.{◌<◌, ◌^◌, length, IfOk};
ghost use Rattle.call_order.specs.Units.{call_lists};
ghost use Rattle.g_pass_order.specs.Calls.{IsOrder};
ghost use Rattle.g_pass_work.specs.Stale.{AreStale};

use crate::changes::changes;
use crate::spread::spread;
use base::NoMemory;
use g_graph::Lambda;
use g_pass_order::Order;
use g_pass_order::laws::orders_are_unique;
use std::alloc::Global;

/// For each function of the new list whether it is stale: whether its lambda or its deps are not
/// those that it had in the old list, or one of its deps is stale. The order is that of the new
/// list, which has fewer than 2^32 functions; the deps are those of the old one, and both old lists
/// are empty where there was none. `NoMemory` only where the allocator has none. It takes time
/// linear in both lists.
pub fn stale(
    alloc: Global,
    old: &[Lambda],
    old_deps: &[Vec<u32>],
    new: &[Lambda],
    order: &Order,
) -> Result<Vec<bool>, NoMemory>
    requires few { length new.now < 2 ^ 32 }
    requires order { IsOrder new.now order.now.ranks.items (call_lists order.now.deps.items) }
    ensures { IfOk result (λ stale. AreStale
        old.now (call_lists old_deps.now) new.now (call_lists order.now.deps.items) stale.items) }
{
    orders_are_unique();
    let changed = changes(alloc, old, old_deps, new, &order.deps)?;
    spread(alloc, &order.ranks, &order.deps, &changed)
}
