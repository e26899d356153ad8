//! What the variables of a node carry.

ghost use Rattle.std.specs.Prelude.{
  ◌≡◌,
  ◌≤◌,
  ◌<◌,
  ◌+◌,
  ◌*◌,
  true,
  drop,
  if◌then◌else◌,
  IfOk,
  slice_get,
};
ghost use Rattle.std.specs.declared.option.Option.TheVariants.{Some, None};
ghost use Rattle.g_graph.specs.declared.op.Kind.TheVariants.{Value};
ghost use Rattle.g_graph.specs.declared.op.Op.TheVariants.{Gamma, Theta};
ghost use Rattle.g_graph.specs.declared.op.Origin.TheVariants.{Arg};
ghost use Rattle.g_graph.specs.Scope.{same_kind, same_origin};
ghost use Rattle.g_graph.specs.WellFormed.{is_origin};
ghost use Rattle.r_edit.specs.Carried.{outer};
ghost use Rattle.g_arena_def.specs.Conditions.{IsResult};
ghost use Rattle.g_arena_def.specs.Flat.{FlatNode};
ghost use Rattle.g_arena_def.specs.Reads.{found, result_at};
ghost use Rattle.r_sweep.specs.Fast.{IsWhole};
ghost use Rattle.r_inv.specs.Listed.{all_pass_in};
ghost use Rattle.r_inv.specs.Carried.{can_carry, carried_of};
ghost use Rattle.r_inv.specs.Cost.{asked};
ghost use Rattle.r_inv.specs.Shape.{IsShape};

use base::{NoMemory, Steps};
use g_arena::{Arena, Uses};
use g_arena_def::Place;
use g_graph::{Kind, Op, Origin, same_origin};
use r_sweep::place_in;
use std::alloc::Global;
use std::sync::ledger::Ledger;

/// A node: its number, op and place, and how many outputs and regions it has.
#[derive(Clone, Copy)]
pub struct Shape {
    pub node: u32,
    pub op: Op,
    pub home: Place,
    pub outputs: u32,
    pub regions: u32,
}

/// Whether variables of a node of this op can carry something: those of a Gamma or a Theta.
pub fn can_carry(op: Op) -> bool
    ensures { result ≡ can_carry op }
{
    match op {
        Op::Gamma | Op::Theta => true,
        _ => false,
    }
}

/// What the variables of a Gamma or a Theta carry: of a Gamma an origin that an exit is in every
/// region, of a Theta the input of a value that its region passes on. For each output it costs a
/// look for each region of a Gamma, and two of a Theta.
pub fn carried<L: Ledger>(
    alloc: Global,
    arena: &Arena,
    shape: Shape,
    inputs: &[Origin],
    looks: &mut Steps<L>,
) -> Result<Vec<Option<Origin>>, NoMemory>
    requires whole { IsWhole arena.now }
    requires shape { IsShape shape arena.now }
    requires op { can_carry shape.op ≡ true }
    requires inputs { (x : FlatNode) → found shape.node arena.now.nodes ≡ Some x →
        inputs.now ≡ x.inputs }
    ensures list { (x : FlatNode) → found shape.node arena.now.nodes ≡ Some x →
        IfOk result (λ list. list.items ≡ carried_of x) }
    ensures looks { looks.new ≤ looks.old + asked shape.op shape.regions * shape.outputs }
{
    let mut list = Vec::new(alloc);
    for port in 0..shape.outputs {
        let origin = carries(arena, shape, inputs, port, looks);
        list.push(origin)?;
    }
    Ok(list)
}

// What one of them carries.
fn carries<L: Ledger>(
    arena: &Arena,
    shape: Shape,
    inputs: &[Origin],
    port: u32,
    looks: &mut Steps<L>,
) -> Option<Origin>
    requires whole { IsWhole arena.now }
    requires shape { IsShape shape arena.now }
    requires op { can_carry shape.op ≡ true }
    requires inputs { (x : FlatNode) → found shape.node arena.now.nodes ≡ Some x →
        inputs.now ≡ x.inputs }
    requires port { port < shape.outputs }
    ensures origin { (x : FlatNode) → found shape.node arena.now.nodes ≡ Some x →
        slice_get (carried_of x) port ≡ Some result }
    ensures looks { looks.new ≤ looks.old + asked shape.op shape.regions }
{
    match shape.op {
        Op::Gamma => passed(arena, shape, inputs, port, looks),
        _ => kept(arena, shape, inputs, port, looks),
    }
}

// The one origin that a result of a Gamma is in every region.
fn passed<L: Ledger>(
    arena: &Arena,
    shape: Shape,
    inputs: &[Origin],
    port: u32,
    looks: &mut Steps<L>,
) -> Option<Origin>
    requires whole { IsWhole arena.now }
    requires shape { IsShape shape arena.now }
    requires gamma { shape.op ≡ Gamma }
    requires inputs { (x : FlatNode) → found shape.node arena.now.nodes ≡ Some x →
        inputs.now ≡ x.inputs }
    requires port { port < shape.outputs }
    ensures origin { (x : FlatNode) → found shape.node arena.now.nodes ≡ Some x →
        slice_get (carried_of x) port ≡ Some result }
    ensures looks { looks.new ≤ looks.old + shape.regions }
{
    let start = place_in(shape.node, 0);
    match outer_result(arena, start, inputs, port, looks) {
        Some(first) => {
            if all_pass(arena, shape, inputs, port, first, looks) {
                Some(first)
            } else {
                None
            }
        }
        None => None,
    }
}

// Whether a result is this origin in each region behind the first.
fn all_pass<L: Ledger>(
    arena: &Arena,
    shape: Shape,
    inputs: &[Origin],
    port: u32,
    origin: Origin,
    looks: &mut Steps<L>,
) -> bool
    requires whole { IsWhole arena.now }
    requires shape { IsShape shape arena.now }
    requires gamma { shape.op ≡ Gamma }
    requires port { port < shape.outputs }
    ensures pass { (x : FlatNode) → found shape.node arena.now.nodes ≡ Some x →
        result ≡ all_pass_in inputs.now origin port (drop 1 x.regions) }
    ensures looks { looks.new + 1 ≤ looks.old + shape.regions }
{
    for region in 1..shape.regions {
        let place = place_in(shape.node, region);
        let other = outer_result(arena, place, inputs, port, looks);
        if !is_origin(other, origin) {
            return false;
        }
    }
    true
}

// The origin of a Gamma's region that a result of one of its regions is.
fn outer_result<L: Ledger>(
    arena: &Arena,
    place: Place,
    inputs: &[Origin],
    port: u32,
    looks: &mut Steps<L>,
) -> Option<Origin>
    requires { IsResult place port arena.now }
    ensures origin { result ≡ outer inputs.now (result_at place port arena.now) }
    ensures looks { looks.new ≡ looks.old + 1 }
{
    outer(inputs, arena.result(place, port, looks))
}

// What an argument of a region is; the first input is the predicate.
fn outer(inputs: &[Origin], given: Origin) -> Option<Origin>
    ensures { result ≡ outer inputs.now (Some given) }
{
    match given {
        Origin::Arg(index) => inputs.get(index as usize + 1).copied(),
        Origin::Out { .. } => None,
    }
}

fn is_origin(found: Option<Origin>, origin: Origin) -> bool
    ensures { result ≡ is_origin found origin }
{
    match found {
        Some(other) => same_origin(other, origin),
        None => false,
    }
}

// The input of a loop variable that is a value, and whose result, the one behind its place, is its
// argument.
fn kept<L: Ledger>(
    arena: &Arena,
    shape: Shape,
    inputs: &[Origin],
    port: u32,
    looks: &mut Steps<L>,
) -> Option<Origin>
    requires whole { IsWhole arena.now }
    requires shape { IsShape shape arena.now }
    requires theta { shape.op ≡ Theta }
    requires inputs { (x : FlatNode) → found shape.node arena.now.nodes ≡ Some x →
        inputs.now ≡ x.inputs }
    requires port { port < shape.outputs }
    ensures origin { (x : FlatNode) → found shape.node arena.now.nodes ≡ Some x →
        slice_get (carried_of x) port ≡ Some result }
    ensures looks { looks.new ≤ looks.old + 2 }
{
    let of = Origin::Out {
        node: shape.node,
        port,
    };
    if !is_value(arena.uses(shape.home, of, looks)) {
        return None;
    }
    let own = arena.result(place_in(shape.node, 0), port + 1, looks);
    input_of(inputs, port, own)
}

fn is_value(uses: Uses) -> bool
    ensures { result ≡ same_kind Value uses.kind }
{
    uses.kind == Kind::Value
}

// The input of a variable, where the result is its argument.
fn input_of(inputs: &[Origin], port: u32, own: Origin) -> Option<Origin>
    ensures { result ≡ (if same_origin own (Arg port) then slice_get inputs.now port else None) }
{
    if same_origin(own, Origin::Arg(port)) {
        inputs.get(port as usize).copied()
    } else {
        None
    }
}
