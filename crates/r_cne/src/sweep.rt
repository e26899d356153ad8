//! The sweep: each node, from the first to the last.

ghost use Rattle.std.specs.Prelude.{
  ◌≡◌,
  ◌+◌,
  ◌*◌,
  ◌≤◌,
  ℕ,
  false,
  nat_lt,
  take,
  if◌then◌else◌,
  IfOk,
  OnErr,
  OnOk,
};
ghost use Rattle.std.specs.declared.option.Option.TheVariants.{Some, None};
ghost use Rattle.g_graph.specs.declared.op.Origin.TheVariants.{Out};
ghost use Rattle.g_graph.specs.Ids.{region_ids};
ghost use Rattle.g_graph.specs.Plain.{PlainLambda};
ghost use Rattle.g_graph.specs.Scope.{same_origin};
ghost use Rattle.g_graph.specs.WellFormed.{IsWellFormed};
ghost use Rattle.g_arena_def.specs.Flat.{StandsFor};
ghost use Rattle.g_arena_def.specs.Conditions.{IsOrigin};
ghost use Rattle.g_arena_def.specs.Reads.{ids, kind_in, node_after, uses_in};
ghost use Rattle.g_arena_def.specs.Size.{lambda_size};
ghost use Rattle.r_sweep.specs.Removals.{uses_moved};
ghost use Rattle.r_sweep_def.specs.Listed.{stepped_in};
ghost use Rattle.r_sweep.specs.Fast.{HasSwept, IsWhole};
ghost use Rattle.r_sweep.specs.Walk.{passed, until};
ghost use Rattle.r_cne.specs.Rule.{is_common};
ghost use Rattle.r_cne.specs.SweepLaws.{cne_change};
ghost use Rattle.r_cne.specs.Listed.{cne_in};
ghost use Rattle.r_cne.specs.First.{AreFirst, IsThere, number, cost_left};

use base::{NoMemory, Steps};
use g_arena::Arena;
use g_arena_def::Place;
use g_arena_use::Keys;
use g_graph::{Op, Origin};
use r_rule::{Rule, Step};
use r_sweep::move_uses;
use std::alloc::Global;
use std::sync::ledger::Ledger;

/// A sweep of the rule over the nodes that the arena has at the start, in pre-order. The steps that
/// are made are appended to the log. `NoMemory` only where the allocator has none; the arena then
/// stands for the lambda after the logged steps.
pub fn sweep_fast<L: Ledger>(
    alloc: Global,
    arena: &mut Arena,
    log: &mut Vec<Step>,
    looks: &mut Steps<L>,
) -> Result<(), NoMemory>
    requires { IsWhole arena.old }
    ensures ok { (l : PlainLambda) → StandsFor arena.old l → IsWellFormed l → OnOk result
        (HasSwept cne_change (region_ids l.body) l log.old.items arena.new log.new.items) }
    ensures err { (l : PlainLambda) → StandsFor arena.old l → IsWellFormed l → OnErr result
        ((count : ℕ)
        × HasSwept cne_change (take count (region_ids l.body)) l log.old.items
        arena.new log.new.items) }
    ensures looks { (l : PlainLambda) → StandsFor arena.old l → IsWellFormed l →
        looks.new ≤ looks.old + 3 * lambda_size l }
{
    crate::laws::cne_keeps_meaning();
    crate::sweep_laws::cne_is_listed();
    let mut keys = Keys::new(alloc);
    let mut next = match arena.ends(looks) {
        Some((first, _)) => Some(first),
        None => None,
    };
    while let Some(node) = next {
        next = visit(arena, &mut keys, log, node, looks)?;
    }
    Ok(())
}

// The rule at a node, where the keys are the first nodes of those before it. The answer is the node
// after it.
fn visit<L: Ledger>(
    arena: &mut Arena,
    keys: &mut Keys,
    log: &mut Vec<Step>,
    node: u32,
    looks: &mut Steps<L>,
) -> Result<Option<u32>, NoMemory>
    requires whole { IsWhole arena.old }
    requires there { IsThere node arena.old }
    requires first { AreFirst keys.old (until number node arena.old.nodes) }
    ensures next { IfOk result (λ next. next ≡ node_after node arena.old) }
    ensures step { OnOk result (record { nodes = arena.new; steps = log.new.items }
        ≡ stepped_in cne_change node (record { nodes = arena.old; steps = log.old.items })
        (cne_in node arena.old)) }
    ensures first { OnOk result
        (AreFirst keys.new (passed number (node_after node arena.old) arena.new.nodes)) }
    ensures numbers { ids arena.new ≡ ids arena.old }
    ensures err_arena { OnErr result (arena.new ≡ arena.old) }
    ensures err_log { OnErr result (log.new.items ≡ log.old.items) }
    ensures looks { looks.new + cost_left (node_after node arena.old) arena.new
        ≤ looks.old + cost_left (Some node) arena.old }
{
    let Some(view) = arena.node(node, looks) else {
        return Ok(None);
    };
    let (op, home, after) = (view.op, view.home, view.after);
    if is_common(op) {
        let first = keys.first(home, op, view.inputs, node, looks)?;
        if first != node {
            merge(arena, log, home, node, first, looks)?;
        }
    }
    Ok(after)
}

fn is_common(op: Op) -> bool
    ensures { result ≡ is_common op }
{
    match op {
        Op::Const(_)
        | Op::Local(_)
        | Op::Delta(_)
        | Op::Bin(_)
        | Op::Un(_)
        | Op::Load(_)
        | Op::PtrEq => true,
        _ => false,
    }
}

// Uses of the node's output become uses of the first node's, where there are any.
fn merge<L: Ledger>(
    arena: &mut Arena,
    log: &mut Vec<Step>,
    home: Place,
    node: u32,
    first: u32,
    looks: &mut Steps<L>,
) -> Result<(), NoMemory>
    requires other { same_origin (Out node 0) (Out first 0) ≡ false }
    requires own { IsOrigin home (Out node 0) arena.old }
    requires there { IsOrigin home (Out first 0) arena.old }
    requires kinds { kind_in home (Out node 0) arena.old ≡ kind_in home (Out first 0) arena.old }
    ensures step { OnOk result (record { nodes = arena.new; steps = log.new.items }
        ≡ stepped_in cne_change node (record { nodes = arena.old; steps = log.old.items })
        (if nat_lt 0 (uses_in home (Out node 0) arena.old)
        then Some (uses_moved home (Out node 0) (Out first 0) arena.old) else None)) }
    ensures err_arena { OnErr result (arena.new ≡ arena.old) }
    ensures err_log { OnErr result (log.new.items ≡ log.old.items) }
    ensures looks { looks.new ≤ looks.old + 1 + uses_in home (Out node 0) arena.old }
    ensures err_looks { OnErr result (looks.new ≡ looks.old + 1) }
{
    let from = Origin::Out { node, port: 0 };
    let count = arena.uses(home, from, looks).count;
    if count == 0 {
        return Ok(());
    }
    log.push(Step {
        rule: Rule::Cne,
        node,
    })?;
    let to = Origin::Out {
        node: first,
        port: 0,
    };
    move_uses(arena, home, from, to, count, looks);
    Ok(())
}
