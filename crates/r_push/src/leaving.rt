//! Nodes that leave a region.

ghost use Rattle.std.specs.Prelude.{◌≡◌, ◌&&◌, ◌^◌, [], ◌∷◌, suc, true, nat_lt, map, List, IfOk, OnOk, slice_get};
ghost use Rattle.r_rule.specs.declared.steps.Step.{Step};
ghost use Rattle.g_graph.specs.Plain.{NodeTree, regions_in, regions_of, has_none};
ghost use Rattle.g_graph.specs.Replace.{node_redirected};
ghost use Rattle.g_graph.specs.Splice.{args_to_inputs};
ghost use Rattle.g_graph.specs.WellFormed.{all_of};
ghost use Rattle.r_edit.specs.Size.{may_change_size};
ghost use Rattle.r_push.specs.Walk.{Cursor, is_open, growth_of, is_kept, moved_result, goes_along, leaves, node_now, gone};
ghost use Rattle.r_walk.specs.Moves.{AreMoves, origin_in};
ghost use Rattle.r_walk.specs.Walks.{HasGained};
ghost use Rattle.r_walk.specs.Walk.{Moved, origin_now};
ghost use Rattle.r_push.specs.Walks.{exit_in, walking, IsCursor, IsWalked, HasRoom};

use crate::exit::Exit;
use crate::now::{inputs_now, origin_now};
use base::NoMemory;
use g_graph::{ArgsToInputs, Node, Origin, Region, is_pure, redirect_origins, same_origin};
use r_edit::may_change_size;
use r_rule::{Rule, Step};
use r_walk::{Moves, Uses};
use std::alloc::Global;

/// Where a walk stands in a region: its exit, and what its nodes and results use and its results,
/// as they were before the walk.
#[derive(Drop)]
pub struct Place<'a> {
    pub exit: Exit,
    pub uses: &'a Uses,
    pub results: &'a [Origin],
}

/// Of a Gamma or Theta whose regions are walked, where their arguments come from now, and the nodes
/// that left them, in this order.
#[derive(Drop)]
pub struct Outside {
    pub inputs: Vec<Origin>,
    pub left: Vec<Node>,
}

/// Whether a node leaves its region, in a lambda of so many values.
#[inline(never)]
pub fn leaves(node: &Node, place: &Place, moves: &Moves, values: u64, outside: &Outside) -> bool
    ensures is { (k : Cursor) (steps : List Step) → IsCursor k place.now moves.now →
        result ≡ leaves k (walking values outside.now steps) (node_now k.moved node.now) }
    ensures room { result ≡ true →
        HasRoom place.now.exit values outside.now (regions_in node.now) }
{
    let args = outside.inputs.len();
    has_room(place.exit, values, args)
        && is_pure(node.op)
        && has_none(&node.regions)
        && all_go_along(node.inputs.as_slice(), place, moves, args)
        && place.uses.is_used(node.id, 0)
}

// Whether a node may leave a region with this exit where each region has so many arguments, in a
// lambda of so many values.
fn has_room(exit: Exit, values: u64, args: usize) -> bool
    ensures { result ≡ (is_open (exit_in exit) && may_change_size values (growth_of (exit_in exit)) 0
        && nat_lt args (2 ^ 32)) }
{
    exit.is_open()
        && may_change_size(values, u128::from(exit.growth()), 0)
        && args <= u32::MAX as usize
}

fn has_none(regions: &[Region]) -> bool
    ensures { result ≡ has_none (regions_of regions.now) }
{
    match regions.first() {
        Some(_) => false,
        None => true,
    }
}

fn all_go_along(origins: &[Origin], place: &Place, moves: &Moves, args: usize) -> bool
    ensures { (k : Cursor) → IsCursor k place.now moves.now →
        result ≡ all_of (goes_along k args) (map (origin_now k.moved []) origins.now) }
{
    for origin in origins {
        if !goes_along(origin_now(*origin, moves), place, moves, args) {
            return false;
        }
    }
    true
}

fn goes_along(origin: Origin, place: &Place, moves: &Moves, args: usize) -> bool
    ensures { (k : Cursor) → IsCursor k place.now moves.now → result ≡ goes_along k args origin }
{
    match origin {
        Origin::Arg(index) => {
            !place.exit.is_loop() || is_kept(place.results, moves, args, index)
        }
        Origin::Out { .. } => false,
    }
}

// Whether the result of this argument's variable is the argument, as the result is now; a variable
// that has none is one of those that the walk added.
fn is_kept(results: &[Origin], moves: &Moves, args: usize, index: u32) -> bool
    ensures { (ms : List Moved) → AreMoves moves.now ms →
        result ≡ is_kept (moved_result ms (slice_get results.now (suc index))) args index }
{
    match results.get(index as usize + 1) {
        Some(result) => same_origin(origin_now(*result, moves), Origin::Arg(index)),
        None => (index as usize) < args,
    }
}

/// A step: a node leaves its region. Outside it stands after those that left before, and uses of it
/// become one more argument.
#[inline(never)]
pub fn leave(
    alloc: Global,
    node: &Node,
    place: &Place,
    moves: &mut Moves,
    values: &mut u64,
    outside: &mut Outside,
    log: &mut Vec<Step>,
) -> Result<(), NoMemory>
    requires { HasRoom place.now.exit values.old outside.old (regions_in node.now) }
    ensures ok { OnOk result ((k : Cursor) (before : List NodeTree) → IsCursor k place.now moves.old →
        IsWalked (gone k (walking values.old outside.old log.old.items) (node_now k.moved node.now))
        before before moves.new (walking values.new outside.new log.new.items)) }
    ensures gained { HasGained log.old.items log.new.items }
{
    let last = Origin::Arg(outside.inputs.len() as u32);
    outside
        .left
        .push(moved(alloc, node, moves, &outside.inputs)?)?;
    outside.inputs.push(Origin::Out {
        node: node.id,
        port: 0,
    })?;
    log.push(Step {
        rule: Rule::Push,
        node: node.id,
    })?;
    moves.note(node.id, only(alloc, last)?)?;
    *values += place.exit.growth();
    Ok(())
}

// The node outside, where its region's arguments are these origins.
fn moved(alloc: Global, node: &Node, moves: &Moves, outer: &[Origin]) -> Result<Node, NoMemory>
    requires { has_none (regions_in node.now) ≡ true }
    ensures { IfOk result (λ made. made ≡ node_redirected (args_to_inputs outer.now)
        (node_redirected (origin_in moves.now []) node.now)) }
{
    let mut inputs = inputs_now(alloc, node, moves)?;
    redirect_origins(inputs.as_mut_slice(), &ArgsToInputs { inputs: outer });
    Ok(Node {
        id: node.id,
        op: node.op,
        inputs,
        regions: Vec::new(alloc),
    })
}

fn only(alloc: Global, origin: Origin) -> Result<Vec<Origin>, NoMemory>
    ensures { IfOk result (λ origins. origins.items ≡ origin ∷ []) }
{
    let mut origins = Vec::with_capacity(alloc, 1)?;
    origins.push(origin)?;
    Ok(origins)
}
