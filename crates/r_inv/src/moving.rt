//! Uses of a node's outputs that move.

ghost use Rattle.std.specs.Prelude.{
  ◌≡◌,
  ◌≤◌,
  ◌<◌,
  ◌+◌,
  ◌&&◌,
  false,
  true,
  is_some,
  length,
  nat_lt,
  OnErr,
  OnOk,
  slice_get,
};
ghost use Rattle.std.specs.declared.option.Option.TheVariants.{Some};
ghost use Rattle.g_graph.specs.declared.op.Op.TheVariants.{Gamma, Theta};
ghost use Rattle.g_graph.specs.declared.op.Origin.TheVariants.{Out};
ghost use Rattle.g_graph.specs.Scope.{same_origin};
ghost use Rattle.g_arena_def.specs.Conditions.{IsOrigin};
ghost use Rattle.g_arena_def.specs.Flat.{FlatNode};
ghost use Rattle.g_arena_def.specs.Reads.{found, kind_in, uses_in};
ghost use Rattle.r_sweep.specs.Removals.{exits_carried, uses_carried, uses_moved};
ghost use Rattle.r_sweep_def.specs.Listed.{stepped_in};
ghost use Rattle.r_sweep.specs.Fast.{IsWhole};
ghost use Rattle.r_inv.specs.SweepLaws.{inv_change};
ghost use Rattle.r_inv.specs.Listed.{moved_in, some_use};
ghost use Rattle.r_inv.specs.Carried.{can_carry, carried_of, carried_out};
ghost use Rattle.r_inv.specs.Cost.{cost_moved, cost_out, exits_cost, uses_cost};
ghost use Rattle.r_inv.specs.Shape.{IsShape};

use crate::carried_sweep::Shape;
use base::{NoMemory, Steps};
use g_arena::Arena;
use g_graph::{Op, Origin};
use r_rule::{Rule, Step};
use r_sweep::{move_uses, remove_exit};
use std::sync::ledger::Ledger;

/// Where an output that carries something has a use, the step is noted, and all such uses become
/// uses of what is carried; of a Gamma the exit variables go too. `NoMemory` only where the
/// allocator has none; nothing has changed then.
pub fn redirect<L: Ledger>(
    arena: &mut Arena,
    log: &mut Vec<Step>,
    shape: Shape,
    carried: &[Option<Origin>],
    looks: &mut Steps<L>,
) -> Result<(), NoMemory>
    requires whole { IsWhole arena.old }
    requires shape { IsShape shape arena.old }
    requires op { can_carry shape.op ≡ true }
    requires carried { (x : FlatNode) → found shape.node arena.old.nodes ≡ Some x →
        carried.now ≡ carried_of x }
    ensures step { (x : FlatNode) → found shape.node arena.old.nodes ≡ Some x → OnOk result
        (record { nodes = arena.new; steps = log.new.items }
        ≡ stepped_in inv_change shape.node (record { nodes = arena.old; steps = log.old.items })
        (moved_in arena.old x)) }
    ensures err_arena { OnErr result (arena.new ≡ arena.old) }
    ensures err_log { OnErr result (log.new.items ≡ log.old.items) }
    ensures looks { (x : FlatNode) → found shape.node arena.old.nodes ≡ Some x → OnOk result
        (looks.new ≤ looks.old + shape.outputs + cost_moved arena.old x) }
    ensures err_looks { OnErr result (looks.new ≤ looks.old + shape.outputs) }
{
    if !some_use(arena, shape, carried, looks) {
        return Ok(());
    }
    log.push(Step {
        rule: Rule::Inv,
        node: shape.node,
    })?;
    move_carried(arena, shape, carried, looks);
    Ok(())
}

// Whether an output that carries something has a use.
fn some_use<L: Ledger>(
    arena: &Arena,
    shape: Shape,
    carried: &[Option<Origin>],
    looks: &mut Steps<L>,
) -> bool
    requires shape { IsShape shape arena.now }
    requires count { length carried.now ≡ shape.outputs }
    ensures used { result ≡ some_use arena.now shape.home shape.node 0 carried.now }
    ensures looks { looks.new ≤ looks.old + shape.outputs }
{
    for port in 0..shape.outputs {
        if is_moved(arena, shape, port, carried[port as usize], looks) {
            return true;
        }
    }
    false
}

// Whether an output carries something and has a use.
fn is_moved<L: Ledger>(
    arena: &Arena,
    shape: Shape,
    port: u32,
    carried: Option<Origin>,
    looks: &mut Steps<L>,
) -> bool
    requires { IsOrigin shape.home (Out shape.node port) arena.now }
    ensures moved { result
        ≡ (is_some carried && nat_lt 0 (uses_in shape.home (Out shape.node port) arena.now)) }
    ensures looks { looks.new ≤ looks.old + 1 }
{
    let of = Origin::Out {
        node: shape.node,
        port,
    };
    match carried {
        Some(_) => arena.uses(shape.home, of, looks).count > 0,
        None => false,
    }
}

// All uses of outputs that carry something move; of a Gamma these exit variables go.
fn move_carried<L: Ledger>(
    arena: &mut Arena,
    shape: Shape,
    carried: &[Option<Origin>],
    looks: &mut Steps<L>,
)
    requires whole { IsWhole arena.old }
    requires shape { IsShape shape arena.old }
    requires op { can_carry shape.op ≡ true }
    requires carried { (x : FlatNode) → found shape.node arena.old.nodes ≡ Some x →
        carried.now ≡ carried_of x }
    ensures moved { (x : FlatNode) → found shape.node arena.old.nodes ≡ Some x →
        arena.new ≡ carried_out arena.old x }
    ensures looks { (x : FlatNode) → found shape.node arena.old.nodes ≡ Some x →
        looks.new ≡ looks.old + cost_out arena.old x }
{
    match shape.op {
        Op::Gamma => move_exits(arena, shape, carried, looks),
        _ => move_variables(arena, shape, carried, looks),
    }
}

// From the last exit variable to the first, uses of one that carries something move, and it goes.
fn move_exits<L: Ledger>(
    arena: &mut Arena,
    shape: Shape,
    carried: &[Option<Origin>],
    looks: &mut Steps<L>,
)
    requires whole { IsWhole arena.old }
    requires shape { IsShape shape arena.old }
    requires gamma { shape.op ≡ Gamma }
    requires carried { (x : FlatNode) → found shape.node arena.old.nodes ≡ Some x →
        carried.now ≡ carried_of x }
    ensures moved { arena.new
        ≡ exits_carried shape.node shape.regions shape.home 0 carried.now arena.old }
    ensures looks { looks.new ≡ looks.old
        + exits_cost shape.node shape.regions shape.home 0 carried.now arena.old }
{
    let mut port = shape.outputs;
    while port > 0 {
        port -= 1;
        if let Some(to) = carried_at(carried, port) {
            move_output(arena, shape, port, to, looks);
            remove_exit(arena, shape.node, shape.regions, port, looks);
        }
    }
}

// From the last loop variable to the first, uses of one that carries something move.
fn move_variables<L: Ledger>(
    arena: &mut Arena,
    shape: Shape,
    carried: &[Option<Origin>],
    looks: &mut Steps<L>,
)
    requires whole { IsWhole arena.old }
    requires shape { IsShape shape arena.old }
    requires theta { shape.op ≡ Theta }
    requires carried { (x : FlatNode) → found shape.node arena.old.nodes ≡ Some x →
        carried.now ≡ carried_of x }
    ensures moved { arena.new ≡ uses_carried shape.node shape.home 0 carried.now arena.old }
    ensures looks { looks.new ≡ looks.old
        + uses_cost shape.node shape.home 0 carried.now arena.old }
{
    let mut port = shape.outputs;
    while port > 0 {
        port -= 1;
        if let Some(to) = carried_at(carried, port) {
            move_output(arena, shape, port, to, looks);
        }
    }
}

// What the variable of an index carries.
fn carried_at(carried: &[Option<Origin>], port: u32) -> Option<Origin>
    requires { port < length carried.now }
    ensures { slice_get carried.now port ≡ Some result }
{
    carried[port as usize]
}

// All uses of an output become uses of another origin of the same kind.
fn move_output<L: Ledger>(
    arena: &mut Arena,
    shape: Shape,
    port: u32,
    to: Origin,
    looks: &mut Steps<L>,
)
    requires other { same_origin (Out shape.node port) to ≡ false }
    requires own { IsOrigin shape.home (Out shape.node port) arena.old }
    requires there { IsOrigin shape.home to arena.old }
    requires kinds { kind_in shape.home (Out shape.node port) arena.old
        ≡ kind_in shape.home to arena.old }
    ensures moved { arena.new ≡ uses_moved shape.home (Out shape.node port) to arena.old }
    ensures looks { looks.new
        ≡ looks.old + 1 + uses_in shape.home (Out shape.node port) arena.old }
{
    let from = Origin::Out {
        node: shape.node,
        port,
    };
    let count = arena.uses(shape.home, from, looks).count;
    move_uses(arena, shape.home, from, to, count, looks);
}
