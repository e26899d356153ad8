//! Variables of a Gamma that go.

ghost use Rattle.std.specs.Prelude.{
  ◌≡◌,
  ◌≤◌,
  ◌<◌,
  ◌+◌,
  ◌*◌,
  ◌^◌,
  ◌&&◌,
  false,
  not,
  ℕ,
  suc,
  List,
  length,
  IfOk,
  OnErr,
  OnOk,
};
ghost use Rattle.std.specs.declared.option.Option.TheVariants.{Some};
ghost use Rattle.g_graph.specs.declared.op.Kind.{Kind};
ghost use Rattle.g_graph.specs.declared.op.Op.TheVariants.{Gamma};
ghost use Rattle.g_graph.specs.declared.op.Origin.TheVariants.{Arg};
ghost use Rattle.r_edit.specs.InPlace.{all_stay};
ghost use Rattle.g_arena_def.specs.Flat.{FlatNode, place_in};
ghost use Rattle.g_arena_def.specs.Reads.{found};
ghost use Rattle.g_arena_def.specs.Conditions.{HasArgument, IsUnused};
ghost use Rattle.r_sweep.specs.Removals.{entry_removed, entries_removed};
ghost use Rattle.r_sweep_def.specs.Listed.{stepped_in};
ghost use Rattle.r_sweep.specs.Fast.{IsWhole};
ghost use Rattle.r_sweep.specs.Measure.{node_size};
ghost use Rattle.r_dne.specs.SweepLaws.{dne_change};
ghost use Rattle.r_dne.specs.Listed.{
  exits_in,
  gamma_in,
  some_region_uses,
  used_arguments,
  without_exits,
};
ghost use Rattle.r_dne.specs.Gone.{with_note};
ghost use Rattle.r_dne.specs.Shape.{HasEntries, IsShape};

use crate::judging::{Shape, stays};
use base::{NoMemory, Steps};
use g_arena::Arena;
use g_graph::Origin;
use r_rule::{Rule, Step};
use r_sweep::{place_in, remove_exit};
use std::sync::ledger::Ledger;

/// Of a Gamma the values go that have no use, and then the entries whose arguments no region uses.
/// The step is noted before the first of them goes. `NoMemory` only where the allocator has none,
/// or where 32 bits do not count the inputs; nothing has changed then.
pub fn shrink_gamma<L: Ledger>(
    arena: &mut Arena,
    log: &mut Vec<Step>,
    shape: Shape,
    looks: &mut Steps<L>,
) -> Result<(), NoMemory>
    requires whole { IsWhole arena.old }
    requires shape { IsShape shape arena.old }
    requires gamma { shape.op ≡ Gamma }
    ensures step { (x : FlatNode) → found shape.node arena.old.nodes ≡ Some x → OnOk result
        (record { nodes = arena.new; steps = log.new.items }
        ≡ stepped_in dne_change shape.node (record { nodes = arena.old; steps = log.old.items })
        (gamma_in arena.old x)) }
    ensures err_arena { OnErr result (arena.new ≡ arena.old) }
    ensures err_log { OnErr result (log.new.items ≡ log.old.items) }
    ensures looks { (x : FlatNode) → found shape.node arena.old.nodes ≡ Some x →
        looks.new + shape.outputs + 1 ≤ looks.old + 3 * node_size x }
{
    let Ok(inputs) = u32::try_from(shape.inputs) else {
        return Err(NoMemory);
    };
    let noted = shrink_exits(arena, log, shape, looks)?;
    shrink_entries(arena, log, shape, inputs - 1, noted, looks)
}

// The exits go that are values and have no use. The answer is whether the step is noted.
fn shrink_exits<L: Ledger>(
    arena: &mut Arena,
    log: &mut Vec<Step>,
    shape: Shape,
    looks: &mut Steps<L>,
) -> Result<bool, NoMemory>
    requires whole { IsWhole arena.old }
    requires shape { IsShape shape arena.old }
    requires gamma { shape.op ≡ Gamma }
    ensures gone { (x : FlatNode) → found shape.node arena.old.nodes ≡ Some x →
        OnOk result (arena.new ≡ without_exits arena.old x) }
    ensures noted { (x : FlatNode) → found shape.node arena.old.nodes ≡ Some x →
        IfOk result (λ noted. noted ≡ not (all_stay (exits_in arena.old x))) }
    ensures log { IfOk result (λ noted.
        log.new.items ≡ with_note noted shape.node log.old.items) }
    ensures err_arena { OnErr result (arena.new ≡ arena.old) }
    ensures err_log { OnErr result (log.new.items ≡ log.old.items) }
    ensures looks { looks.new ≤ looks.old + (2 + shape.regions) * shape.outputs }
{
    let mut noted = false;
    let mut port = shape.outputs;
    while port > 0 {
        port -= 1;
        let of = Origin::Out {
            node: shape.node,
            port,
        };
        if !stays(arena.uses(shape.home, of, looks)) {
            note(log, shape.node, noted)?;
            noted = true;
            remove_exit(arena, shape.node, shape.regions, port, looks);
        }
    }
    Ok(noted)
}

// The entries go whose arguments no region uses; so many there are. The step is noted, or noted
// before the first of them goes.
fn shrink_entries<L: Ledger>(
    arena: &mut Arena,
    log: &mut Vec<Step>,
    shape: Shape,
    count: u32,
    noted: bool,
    looks: &mut Steps<L>,
) -> Result<(), NoMemory>
    requires { HasEntries shape.node shape.regions count arena.old }
    ensures gone { (ks : List Kind) → length ks ≡ count → OnOk result (arena.new
        ≡ entries_removed shape.node shape.regions
        (used_arguments arena.old shape.node shape.regions 0 ks) arena.old) }
    ensures log { (ks : List Kind) → length ks ≡ count → OnOk result (log.new.items
        ≡ with_note (not noted && not (all_stay
        (used_arguments arena.old shape.node shape.regions 0 ks))) shape.node log.old.items) }
    ensures err_noted { OnErr result (noted ≡ false) }
    ensures err_arena { OnErr result (arena.new ≡ arena.old) }
    ensures err_log { OnErr result (log.new.items ≡ log.old.items) }
    ensures looks { looks.new ≤ looks.old + (2 * shape.regions + 1) * count }
{
    let mut noted = noted;
    let mut index = count;
    while index > 0 {
        index -= 1;
        if !is_entry_used(arena, shape, index, looks) {
            note(log, shape.node, noted)?;
            noted = true;
            remove_entry(arena, shape, index, looks);
        }
    }
    Ok(())
}

// Whether some region uses the argument.
fn is_entry_used<L: Ledger>(arena: &Arena, shape: Shape, index: u32, looks: &mut Steps<L>) -> bool
    requires { (j : ℕ) → j < shape.regions → HasArgument (place_in shape.node j) index arena.now }
    ensures used { result ≡ some_region_uses arena.now shape.node shape.regions (Arg index) }
    ensures looks { looks.new ≤ looks.old + shape.regions }
{
    for region in 0..shape.regions {
        let uses = arena.uses(place_in(shape.node, region), Origin::Arg(index), looks);
        if uses.count > 0 {
            return true;
        }
    }
    false
}

// An entry goes: its argument in each region, and its input, which stands behind the predicate.
fn remove_entry<L: Ledger>(arena: &mut Arena, shape: Shape, index: u32, looks: &mut Steps<L>)
    requires room { index + 1 < 2 ^ 32 }
    requires entries { HasEntries shape.node shape.regions (suc index) arena.old }
    requires unused { (j : ℕ) → j < shape.regions →
        IsUnused (place_in shape.node j) (Arg index) arena.old }
    ensures gone { arena.new ≡ entry_removed shape.node shape.regions index arena.old }
    ensures looks { looks.new ≡ looks.old + 1 + shape.regions }
{
    for region in 0..shape.regions {
        arena.remove_argument(place_in(shape.node, region), index, looks);
    }
    arena.remove_input(shape.node, index + 1, looks);
}

/// The step is noted, unless it is already.
pub fn note(log: &mut Vec<Step>, node: u32, noted: bool) -> Result<(), NoMemory>
    ensures ok { OnOk result (log.new.items ≡ with_note (not noted) node log.old.items) }
    ensures err { OnErr result (log.new.items ≡ log.old.items) }
    ensures err_noted { OnErr result (noted ≡ false) }
{
    if !noted {
        log.push(Step {
            rule: Rule::Dne,
            node,
        })?;
    }
    Ok(())
}
