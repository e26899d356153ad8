//! The sweep.

ghost use Rattle.std.specs.Prelude.{◌≡◌, IfOk, OnErr};
ghost use Rattle.g_graph.specs.Ids.{region_ids};
ghost use Rattle.g_graph.specs.WellFormed.{IsWellFormed};
ghost use Rattle.r_sweep_def.specs.Swept.{swept_by};
ghost use Rattle.r_push.specs.WalkLaws.{push_change};
ghost use Rattle.r_walk.specs.Walks.{HasGained};

use crate::walk_laws::walk_is_sweep;
use crate::walker::walk;
use base::NoMemory;
use g_graph::Lambda;
use r_rule::Step;
use std::alloc::Global;

/// What a sweep of push makes of a lambda: the rule is tried at each node that the lambda has, in
/// pre-order. The steps that applied are appended to the log. `NoMemory` only where the allocator
/// has none, where 64 bits do not count the lambda's values, or 32 bits the arguments of a region;
/// the lambda is then given up, and the log may have more steps. It takes time n log n in the lambda
/// and in what comes.
pub fn sweep_fast(alloc: Global, lambda: Lambda, log: &mut Vec<Step>) -> Result<Lambda, NoMemory>
    requires well_formed { IsWellFormed lambda }
    ensures ok { IfOk result (λ made. record { lambda = made; steps = log.new.items } ≡
        swept_by push_change (region_ids lambda.body)
        (record { lambda = lambda; steps = log.old.items })) }
    ensures err { OnErr result (HasGained log.old.items log.new.items) }
{
    walk_is_sweep();
    walk(alloc, lambda, log)
}
