//! The sweep: each node, from the last to the first.

ghost use Rattle.std.specs.Prelude.{◌≡◌, ◌+◌, ◌*◌, ◌≤◌, ℕ, reverse, take, IfOk, OnErr, OnOk};
ghost use Rattle.std.specs.declared.option.Option.TheVariants.{Some};
ghost use Rattle.g_graph.specs.Ids.{region_ids};
ghost use Rattle.g_graph.specs.Plain.{PlainLambda};
ghost use Rattle.g_graph.specs.WellFormed.{IsWellFormed};
ghost use Rattle.g_arena_def.specs.Flat.{FlatNode, StandsFor};
ghost use Rattle.g_arena_def.specs.Reads.{found, node_before};
ghost use Rattle.g_arena_def.specs.Size.{lambda_size};
ghost use Rattle.r_sweep_def.specs.Listed.{stepped_in};
ghost use Rattle.r_sweep.specs.Fast.{HasSwept, IsWhole};
ghost use Rattle.r_sweep.specs.Measure.{node_size};
ghost use Rattle.r_dne.specs.SweepLaws.{dne_change};
ghost use Rattle.r_dne.specs.Listed.{dne_in, shrunk_in};
ghost use Rattle.r_dne.specs.Shape.{IsShape};

use crate::gamma_sweep::shrink_gamma;
use crate::judging::{Shape, is_dead};
use crate::theta_sweep::shrink_theta;
use base::{NoMemory, Steps};
use g_arena::Arena;
use g_graph::Op;
use r_rule::{Rule, Step};
use std::alloc::Global;
use std::sync::ledger::Ledger;

/// A sweep of the rule over the nodes that the arena has at the start, in pre-order reversed. The
/// steps that are made are appended to the log. `NoMemory` only where the allocator has none, or
/// where 32 bits do not count the inputs of a node; the arena then stands for the lambda after the
/// logged steps.
pub fn sweep_fast<L: Ledger>(
    alloc: Global,
    arena: &mut Arena,
    log: &mut Vec<Step>,
    looks: &mut Steps<L>,
) -> Result<(), NoMemory>
    requires { IsWhole arena.old }
    ensures ok { (l : PlainLambda) → StandsFor arena.old l → IsWellFormed l → OnOk result
        (HasSwept dne_change (reverse (region_ids l.body)) l log.old.items
        arena.new log.new.items) }
    ensures err { (l : PlainLambda) → StandsFor arena.old l → IsWellFormed l → OnErr result
        ((count : ℕ) × HasSwept dne_change (take count (reverse (region_ids l.body))) l
        log.old.items arena.new log.new.items) }
    ensures looks { (l : PlainLambda) → StandsFor arena.old l → IsWellFormed l →
        looks.new ≤ looks.old + 3 * lambda_size l }
{
    crate::laws::dne_keeps_meaning();
    crate::sweep_laws::dne_is_listed();
    let mut next = match arena.ends(looks) {
        Some((_, last)) => Some(last),
        None => None,
    };
    while let Some(node) = next {
        next = visit(alloc, arena, log, node, looks)?;
    }
    Ok(())
}

// The rule at a node. The answer is the node before it.
fn visit<L: Ledger>(
    alloc: Global,
    arena: &mut Arena,
    log: &mut Vec<Step>,
    node: u32,
    looks: &mut Steps<L>,
) -> Result<Option<u32>, NoMemory>
    requires whole { IsWhole arena.old }
    requires there { (x : FlatNode) × (found node arena.old.nodes ≡ Some x) }
    ensures next { IfOk result (λ next. next ≡ node_before node arena.old) }
    ensures step { OnOk result (record { nodes = arena.new; steps = log.new.items }
        ≡ stepped_in dne_change node (record { nodes = arena.old; steps = log.old.items })
        (dne_in node arena.old)) }
    ensures err_arena { OnErr result (arena.new ≡ arena.old) }
    ensures err_log { OnErr result (log.new.items ≡ log.old.items) }
    ensures looks { (x : FlatNode) → found node arena.old.nodes ≡ Some x →
        looks.new ≤ looks.old + 3 * node_size x }
{
    let Some(view) = arena.node(node, looks) else {
        return Ok(None);
    };
    let before = view.before;
    let shape = Shape {
        node,
        op: view.op,
        home: view.home,
        inputs: view.inputs.len(),
        outputs: view.outputs,
        regions: view.regions,
    };
    if is_dead(arena, shape, looks) {
        log.push(Step {
            rule: Rule::Dne,
            node,
        })?;
        arena.remove_node(node, looks);
    } else {
        shrink(alloc, arena, log, shape, looks)?;
    }
    Ok(before)
}

// Variables of a Gamma or of a Theta go.
fn shrink<L: Ledger>(
    alloc: Global,
    arena: &mut Arena,
    log: &mut Vec<Step>,
    shape: Shape,
    looks: &mut Steps<L>,
) -> Result<(), NoMemory>
    requires whole { IsWhole arena.old }
    requires shape { IsShape shape arena.old }
    ensures step { (x : FlatNode) → found shape.node arena.old.nodes ≡ Some x → OnOk result
        (record { nodes = arena.new; steps = log.new.items }
        ≡ stepped_in dne_change shape.node (record { nodes = arena.old; steps = log.old.items })
        (shrunk_in x.op x.regions arena.old x)) }
    ensures err_arena { OnErr result (arena.new ≡ arena.old) }
    ensures err_log { OnErr result (log.new.items ≡ log.old.items) }
    ensures looks { (x : FlatNode) → found shape.node arena.old.nodes ≡ Some x →
        looks.new + shape.outputs + 1 ≤ looks.old + 3 * node_size x }
{
    match shape.op {
        Op::Gamma => shrink_gamma(arena, log, shape, looks),
        Op::Theta => shrink_theta(alloc, arena, log, shape, looks),
        _ => Ok(()),
    }
}
