//! The sweep: each node, from the first to the last.

ghost use Rattle.std.specs.Prelude.{◌≡◌, ◌+◌, ◌*◌, ◌≤◌, ℕ, take, IfOk, OnErr, OnOk};
ghost use Rattle.std.specs.declared.option.Option.TheVariants.{Some};
ghost use Rattle.g_graph.specs.Ids.{region_ids};
ghost use Rattle.g_graph.specs.Plain.{PlainLambda};
ghost use Rattle.g_graph.specs.WellFormed.{IsWellFormed};
ghost use Rattle.g_arena_def.specs.Flat.{StandsFor};
ghost use Rattle.g_arena_def.specs.Reads.{ids, node_after};
ghost use Rattle.g_arena_def.specs.Size.{lambda_size};
ghost use Rattle.r_sweep_def.specs.Listed.{stepped_in};
ghost use Rattle.r_sweep.specs.Fast.{HasSwept, IsWhole};
ghost use Rattle.r_inv.specs.SweepLaws.{inv_change};
ghost use Rattle.r_inv.specs.Listed.{inv_in};
ghost use Rattle.r_inv.specs.Cost.{IsThere, cost_left};

use crate::carried_sweep::{Shape, can_carry, carried};
use crate::moving::redirect;
use base::{NoMemory, Steps};
use g_arena::Arena;
use r_rule::Step;
use std::alloc::Global;
use std::sync::ledger::Ledger;

/// A sweep of the rule over the nodes that the arena has at the start, in pre-order. The steps that
/// are made are appended to the log. `NoMemory` only where the allocator has none; the arena then
/// stands for the lambda after the logged steps.
pub fn sweep_fast<L: Ledger>(
    alloc: Global,
    arena: &mut Arena,
    log: &mut Vec<Step>,
    looks: &mut Steps<L>,
) -> Result<(), NoMemory>
    requires { IsWhole arena.old }
    ensures ok { (l : PlainLambda) → StandsFor arena.old l → IsWellFormed l → OnOk result
        (HasSwept inv_change (region_ids l.body) l log.old.items arena.new log.new.items) }
    ensures err { (l : PlainLambda) → StandsFor arena.old l → IsWellFormed l → OnErr result
        ((count : ℕ)
        × HasSwept inv_change (take count (region_ids l.body)) l log.old.items
        arena.new log.new.items) }
    ensures looks { (l : PlainLambda) → StandsFor arena.old l → IsWellFormed l →
        looks.new ≤ looks.old + 3 * lambda_size l }
{
    crate::laws::inv_keeps_meaning();
    crate::sweep_laws::inv_is_listed();
    let mut next = match arena.ends(looks) {
        Some((first, _)) => Some(first),
        None => None,
    };
    while let Some(node) = next {
        next = visit(alloc, arena, log, node, looks)?;
    }
    Ok(())
}

// The rule at a node. The answer is the node after it.
fn visit<L: Ledger>(
    alloc: Global,
    arena: &mut Arena,
    log: &mut Vec<Step>,
    node: u32,
    looks: &mut Steps<L>,
) -> Result<Option<u32>, NoMemory>
    requires whole { IsWhole arena.old }
    requires there { IsThere node arena.old }
    ensures next { IfOk result (λ next. next ≡ node_after node arena.old) }
    ensures step { OnOk result (record { nodes = arena.new; steps = log.new.items }
        ≡ stepped_in inv_change node (record { nodes = arena.old; steps = log.old.items })
        (inv_in node arena.old)) }
    ensures numbers { ids arena.new ≡ ids arena.old }
    ensures err_arena { OnErr result (arena.new ≡ arena.old) }
    ensures err_log { OnErr result (log.new.items ≡ log.old.items) }
    ensures looks { looks.new + cost_left (node_after node arena.old) arena.new
        ≤ looks.old + cost_left (Some node) arena.old }
{
    let Some(view) = arena.node(node, looks) else {
        return Ok(None);
    };
    let after = view.after;
    let shape = Shape {
        node,
        op: view.op,
        home: view.home,
        outputs: view.outputs,
        regions: view.regions,
    };
    if can_carry(shape.op) {
        let list = carried(alloc, arena, shape, view.inputs, looks)?;
        redirect(arena, log, shape, &list, looks)?;
    }
    Ok(after)
}
