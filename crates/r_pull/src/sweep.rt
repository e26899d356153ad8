//! The sweep.

ghost use Rattle.std.specs.Prelude.{◌≡◌, IfOk, OnErr, reverse};
ghost use Rattle.g_graph.specs.Ids.{region_ids};
ghost use Rattle.g_graph.specs.WellFormed.{IsWellFormed};
ghost use Rattle.r_pull.specs.WalkLaws.{pull_change};
ghost use Rattle.r_sweep_def.specs.Swept.{swept_by};
ghost use Rattle.r_walk.specs.Walks.{HasGained};

use crate::walk_laws::pull_walks_are_sweeps;
use crate::walker::walk;
use base::NoMemory;
use g_graph::Lambda;
use r_rule::Step;
use std::alloc::Global;

/// What a sweep of Pull makes of a lambda: the rule is tried at each node that the lambda has, from
/// the last in pre-order to the first. The steps that applied are appended to the log. `NoMemory`
/// only where the allocator has none, or where 64 bits do not count the lambda's values; the lambda
/// is then given up, and the log may have more steps. Beside the steps, each of which is linear in
/// its Gamma, it takes time n log n in the lambda.
pub fn sweep_fast(alloc: Global, lambda: Lambda, log: &mut Vec<Step>) -> Result<Lambda, NoMemory>
    requires well_formed { IsWellFormed lambda }
    ensures ok { IfOk result (λ made. record { lambda = made; steps = log.new.items } ≡
        swept_by pull_change (reverse (region_ids lambda.body))
        (record { lambda = lambda; steps = log.old.items })) }
    ensures err { OnErr result (HasGained log.old.items log.new.items) }
{
    pull_walks_are_sweeps();
    walk(alloc, lambda, log)
}
