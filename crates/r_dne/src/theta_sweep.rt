//! Variables of a Theta that go.

ghost use Rattle.std.specs.Prelude.{
  ◌≡◌,
  ◌≤◌,
  ◌<◌,
  ◌+◌,
  ◌*◌,
  ◌^◌,
  ◌∷◌,
  [],
  if◌then◌else◌,
  IfOk,
  OnErr,
  OnOk,
  slice_get,
};
ghost use Rattle.std.specs.declared.option.Option.TheVariants.{Some};
ghost use Rattle.g_graph.specs.declared.op.Op.TheVariants.{Theta};
ghost use Rattle.g_graph.specs.declared.op.Origin.TheVariants.{Arg};
ghost use Rattle.g_graph.specs.WellFormed.{is_origin};
ghost use Rattle.g_arena_def.specs.Flat.{FlatNode, FlatRegion, place_in};
ghost use Rattle.g_arena_def.specs.Conditions.{IsResult};
ghost use Rattle.g_arena_def.specs.Reads.{found, result_at};
ghost use Rattle.r_sweep.specs.Removals.{variable_removed, variables_removed};
ghost use Rattle.r_sweep_def.specs.Listed.{stepped_in};
ghost use Rattle.r_sweep.specs.Fast.{IsWhole};
ghost use Rattle.r_sweep.specs.Measure.{node_size};
ghost use Rattle.r_dne.specs.SweepLaws.{dne_change};
ghost use Rattle.r_dne.specs.Listed.{theta_in, used_loops};
ghost use Rattle.r_dne.specs.Shape.{IsShape, IsVariable};

use crate::judging::{Shape, stays};
use base::{NoMemory, Steps};
use g_arena::Arena;
use g_arena_def::Place;
use g_graph::{Origin, same_origin};
use r_edit::are_all_true;
use r_rule::{Rule, Step};
use r_sweep::place_in;
use std::alloc::Global;
use std::sync::ledger::Ledger;

/// Of a Theta the values go whose output has no use, and whose argument nothing uses but their own
/// result. All of them are judged before one goes, and before the step is noted. `NoMemory` only
/// where the allocator has none; nothing has changed then.
pub fn shrink_theta<L: Ledger>(
    alloc: Global,
    arena: &mut Arena,
    log: &mut Vec<Step>,
    shape: Shape,
    looks: &mut Steps<L>,
) -> Result<(), NoMemory>
    requires whole { IsWhole arena.old }
    requires shape { IsShape shape arena.old }
    requires theta { shape.op ≡ Theta }
    ensures step { (x : FlatNode) (r : FlatRegion) → found shape.node arena.old.nodes ≡ Some x →
        x.regions ≡ r ∷ [] → OnOk result (record { nodes = arena.new; steps = log.new.items }
        ≡ stepped_in dne_change shape.node (record { nodes = arena.old; steps = log.old.items })
        (theta_in arena.old x r)) }
    ensures err_arena { OnErr result (arena.new ≡ arena.old) }
    ensures err_log { OnErr result (log.new.items ≡ log.old.items) }
    ensures looks { (x : FlatNode) → found shape.node arena.old.nodes ≡ Some x →
        looks.new + shape.outputs + 1 ≤ looks.old + 3 * node_size x }
{
    let stay = judge(alloc, arena, shape, looks)?;
    if are_all_true(&stay) {
        return Ok(());
    }
    log.push(Step {
        rule: Rule::Dne,
        node: shape.node,
    })?;
    remove_variables(arena, shape, &stay, looks);
    Ok(())
}

// Which variables stay.
fn judge<L: Ledger>(
    alloc: Global,
    arena: &Arena,
    shape: Shape,
    looks: &mut Steps<L>,
) -> Result<Vec<bool>, NoMemory>
    requires whole { IsWhole arena.now }
    requires shape { IsShape shape arena.now }
    requires theta { shape.op ≡ Theta }
    ensures stay { (x : FlatNode) (r : FlatRegion) → found shape.node arena.now.nodes ≡ Some x →
        x.regions ≡ r ∷ [] → IfOk result (λ list. list.items ≡ used_loops arena.now x r 0 r.args) }
    ensures looks { looks.new ≤ looks.old + 3 * shape.outputs }
{
    let mut stay = Vec::new(alloc);
    for index in 0..shape.outputs {
        stay.push(variable_stays(arena, shape, index, looks))?;
    }
    Ok(stay)
}

// Whether a variable stays.
fn variable_stays<L: Ledger>(arena: &Arena, shape: Shape, index: u32, looks: &mut Steps<L>) -> bool
    requires whole { IsWhole arena.now }
    requires shape { IsShape shape arena.now }
    requires theta { shape.op ≡ Theta }
    requires within { index < shape.outputs }
    ensures stays { (x : FlatNode) (r : FlatRegion) → found shape.node arena.now.nodes ≡ Some x →
        x.regions ≡ r ∷ [] → slice_get (used_loops arena.now x r 0 r.args) index ≡ Some result }
    ensures looks { looks.new ≤ looks.old + 3 }
{
    let output = Origin::Out {
        node: shape.node,
        port: index,
    };
    if stays(arena.uses(shape.home, output, looks)) {
        return true;
    }
    let inner = place_in(shape.node, 0);
    let count = arena.uses(inner, Origin::Arg(index), looks).count;
    count > own_use(arena, inner, index, looks)
}

// How often the variable's own result, which stands behind the predicate, uses its argument.
fn own_use<L: Ledger>(arena: &Arena, inner: Place, index: u32, looks: &mut Steps<L>) -> u64
    requires room { index + 1 < 2 ^ 32 }
    requires there { IsResult inner (index + 1) arena.now }
    ensures count { result ≡ (if is_origin (result_at inner (index + 1) arena.now) (Arg index)
        then 1 else 0) }
    ensures looks { looks.new ≡ looks.old + 1 }
{
    let own = arena.result(inner, index + 1, looks);
    if same_origin(own, Origin::Arg(index)) {
        1
    } else {
        0
    }
}

// Variables go, from the last to the first.
fn remove_variables<L: Ledger>(arena: &mut Arena, shape: Shape, stay: &[bool], looks: &mut Steps<L>)
    requires whole { IsWhole arena.old }
    requires shape { IsShape shape arena.old }
    requires theta { shape.op ≡ Theta }
    requires stay { (x : FlatNode) (r : FlatRegion) → found shape.node arena.old.nodes ≡ Some x →
        x.regions ≡ r ∷ [] → stay.now ≡ used_loops arena.old x r 0 r.args }
    ensures gone { arena.new ≡ variables_removed shape.node stay.now arena.old }
    ensures looks { looks.new ≤ looks.old + 4 * shape.outputs }
{
    let mut index = shape.outputs;
    while index > 0 {
        index -= 1;
        if !stay[index as usize] {
            remove_variable(arena, shape.node, index, looks);
        }
    }
}

// A variable goes: its output, its result, its argument and its input.
fn remove_variable<L: Ledger>(arena: &mut Arena, node: u32, index: u32, looks: &mut Steps<L>)
    requires room { index + 1 < 2 ^ 32 }
    requires variable { IsVariable node index arena.old }
    ensures gone { arena.new ≡ variable_removed node index arena.old }
    ensures looks { looks.new ≡ looks.old + 4 }
{
    let inner = place_in(node, 0);
    arena.remove_output(node, index, looks);
    arena.remove_result(inner, index + 1, looks);
    arena.remove_argument(inner, index, looks);
    arena.remove_input(node, index, looks);
}
