//! The functions of a program, by rank, and within a rank by number.

ghost use Rattle.std.specs.Prelude.{◌≡◌, ◌+◌, ◌<◌, ◌^◌, ℕ, length, map, slice_index, slice_set, IfOk, IfErr, OnOk};
ghost use Rattle.std.specs.Arc.{arc_value};
ghost use Rattle.call_order.specs.Units.{call_lists};
ghost use Rattle.g_graph.specs.Lists.{IsComplete};
ghost use Rattle.g_graph.specs.WellFormed.{IsWellFormed};
ghost use Rattle.g_pass_order.specs.Calls.{IsOrder};
ghost use Rattle.g_pass_def.specs.Answers.{lambdas_of};
ghost use Rattle.log_check.specs.Right.{part_at, AreRight, AreRightUntil};
ghost use Rattle.log_check.specs.Fault.{IsReplayFault};

use crate::callees::{as_built, callees_of, without_steps};
use crate::function::replay_function;
use crate::replay_fault::ReplayFault;
use crate::{Log, LogPart};
use g_graph::Lambda;
use g_pass_order::laws::{complete_lists_know_calls, orders_are_unique};
use g_pass_order::{Order, above_all, order};
use r_rule::Optimised;
use std::alloc::Global;
use std::sync::Arc;

// What the log's steps make of the next function of a rank.
fn changed_at(
    alloc: Global,
    lambdas: &[Lambda],
    order: &Order,
    log: &[LogPart],
    function: usize,
    made: &[Arc<Optimised>],
) -> Result<Lambda, ReplayFault>
    requires order { IsOrder lambdas.now order.now.ranks.items (call_lists order.now.deps.items) }
    requires complete { IsComplete lambdas.now }
    requires logged { length log.now ≡ length lambdas.now }
    requires short { (j : ℕ) → j < length log.now
        → (part_at log.now j).line + length (part_at log.now j).steps < 2 ^ 32 }
    requires inside { function < length lambdas.now }
    requires before { AreRightUntil lambdas.now order.now.ranks.items
        (call_lists order.now.deps.items) log.now (slice_index order.now.ranks.items function)
        function (lambdas_of (map arc_value made.now)) }
    ensures right { IfOk result (λ changed. AreRightUntil lambdas.now order.now.ranks.items
        (call_lists order.now.deps.items) log.now (slice_index order.now.ranks.items function)
        (function + 1) (slice_set (lambdas_of (map arc_value made.now)) function changed)) }
    ensures well_formed { IfOk result (λ changed. IsWellFormed changed) }
    ensures fault { IfErr result (λ e. IsReplayFault lambdas.now log.now e) }
{
    orders_are_unique();
    let callees = callees_of(alloc, made, &order.deps[function])?;
    replay_function(alloc, &lambdas[function], &callees, &log[function])
}

// Takes the next function, if it is of this rank.
fn replay_at(
    alloc: Global,
    lambdas: &[Lambda],
    order: &Order,
    log: &[LogPart],
    rank: usize,
    function: usize,
    made: &mut Vec<Arc<Optimised>>,
) -> Result<(), ReplayFault>
    requires order { IsOrder lambdas.now order.now.ranks.items (call_lists order.now.deps.items) }
    requires complete { IsComplete lambdas.now }
    requires logged { length log.now ≡ length lambdas.now }
    requires short { (j : ℕ) → j < length log.now
        → (part_at log.now j).line + length (part_at log.now j).steps < 2 ^ 32 }
    requires inside { function < length lambdas.now }
    requires before { AreRightUntil lambdas.now order.now.ranks.items
        (call_lists order.now.deps.items) log.now rank function
        (lambdas_of (map arc_value made.old.items)) }
    ensures right { OnOk result (AreRightUntil lambdas.now order.now.ranks.items
        (call_lists order.now.deps.items) log.now rank (function + 1)
        (lambdas_of (map arc_value made.new.items))) }
    ensures fault { IfErr result (λ e. IsReplayFault lambdas.now log.now e) }
{
    orders_are_unique();
    if order.ranks[function] as usize != rank {
        return Ok(());
    }
    let changed = changed_at(alloc, lambdas, order, log, function, made)?;
    made[function] = without_steps(alloc, changed)?;
    Ok(())
}

// Takes the functions of a rank.
fn replay_rank(
    alloc: Global,
    lambdas: &[Lambda],
    order: &Order,
    log: &[LogPart],
    rank: usize,
    made: &mut Vec<Arc<Optimised>>,
) -> Result<(), ReplayFault>
    requires order { IsOrder lambdas.now order.now.ranks.items (call_lists order.now.deps.items) }
    requires complete { IsComplete lambdas.now }
    requires logged { length log.now ≡ length lambdas.now }
    requires short { (j : ℕ) → j < length log.now
        → (part_at log.now j).line + length (part_at log.now j).steps < 2 ^ 32 }
    requires before { AreRightUntil lambdas.now order.now.ranks.items
        (call_lists order.now.deps.items) log.now rank 0
        (lambdas_of (map arc_value made.old.items)) }
    ensures right { OnOk result (AreRightUntil lambdas.now order.now.ranks.items
        (call_lists order.now.deps.items) log.now (rank + 1) 0
        (lambdas_of (map arc_value made.new.items))) }
    ensures fault { IfErr result (λ e. IsReplayFault lambdas.now log.now e) }
{
    orders_are_unique();
    for function in 0..lambdas.len() {
        replay_at(alloc, lambdas, order, log, rank, function, made)?;
    }
    Ok(())
}

/// What the steps of a log make of each lambda of a complete list, in the order of the list: each
/// is given what was made of the functions of other units that it calls. The log has a part for
/// each lambda, and its lines have 32 bits. `BadCount` and `BadStep` come exactly where the first
/// fault by rank, and within a rank by number, is that one. It takes time linear in the lambdas for
/// each of their steps, and in the functions for each rank.
pub fn replay(
    alloc: Global,
    lambdas: &[Lambda],
    log: &Log,
) -> Result<Vec<Arc<Optimised>>, ReplayFault>
    requires few { length lambdas.now < 2 ^ 32 }
    requires complete { IsComplete lambdas.now }
    requires logged { length log.now ≡ length lambdas.now }
    requires short { (j : ℕ) → j < length log.now
        → (part_at log.now j).line + length (part_at log.now j).steps < 2 ^ 32 }
    ensures right { IfOk result (λ all.
        AreRight lambdas.now log.now (lambdas_of (map arc_value all.items))) }
    ensures fault { IfErr result (λ e. IsReplayFault lambdas.now log.now e) }
{
    complete_lists_know_calls();
    orders_are_unique();
    let order = order(alloc, lambdas)?;
    let mut made = as_built(alloc, lambdas)?;
    for rank in 0..above_all(&order.ranks) {
        replay_rank(alloc, lambdas, &order, &log.functions, rank, &mut made)?;
    }
    Ok(made)
}
