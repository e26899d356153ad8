//! An arena, and its calls.

ghost use Rattle.std.specs.Prelude.{◌≡◌, ℕ, ◌+◌, ◌^◌, ◌<◌, Some, None, MatchOption, length, nat_lt, slice_get, slice_set};
ghost use Rattle.cell_lists.specs.Lists.{after_in};
ghost use Rattle.g_graph.specs.declared.op.Origin.TheVariants.{Arg};
ghost use Rattle.g_arena_def.specs.Reads.{
  ends_of,
  pair_of,
  view_of,
  result_at,
  kind_in,
  input_uses,
  uses_in,
};
ghost use Rattle.g_arena_use.specs.Lists.{emptied};
ghost use Rattle.g_arena_use.specs.Plain.{IsShort, IsThere, live_from, slot_at, slot_gone};
ghost use Rattle.g_arena_def.specs.Conditions.{
  IsResult,
  IsOrigin,
  HasInput,
  HasOutput,
  HasArgument,
  IsUnused,
  IsUnusedNode,
};
ghost use Rattle.g_arena_def.specs.Edits.{
  at_with,
  use_changed,
  node_removed,
  input_removed,
  output_removed,
  argument_removed,
  result_removed,
};
ghost use Rattle.g_arena.specs.Gone.{ArePlaced, WentTogether, cleared};
ghost use Rattle.g_arena.specs.Rows.{HasResults};

use base::Steps;
use g_arena_def::Place;
use g_arena_use::{Kinds, Nodes, Slot, Use, UseLists};
use g_graph::{Kind, Object, Op, Origin};
use std::alloc::Global;
use std::marker::Model;
use std::sync::ledger::Ledger;

/// A lambda with an index of its nodes by number, of their neighbours in pre-order, and of the uses
/// of each origin. Contracts see the list of its nodes in pre-order.
#[derive(Drop)]
pub struct Arena {
    pub(crate) alloc: Global,
    pub(crate) number: u32,
    pub(crate) params: u32,
    pub(crate) objects: Vec<Object>,
    pub(crate) next: u32,
    // The arguments of the body.
    pub(crate) args: Kinds,
    pub(crate) nodes: Nodes,
    // The inputs of the node of each slot.
    pub(crate) inputs: UseLists,
    // The results of the body, and then of the regions of the nodes.
    pub(crate) results: UseLists,
}

impl Model for Arena {
    ghost use Rattle.g_arena_def.specs.Flat.{Flat};

    ghost Value = { Flat };

    ghost use Rattle.g_arena.specs.Seen.{arena_seen, IsStored};

    ghost view = { λ a. arena_seen a };

    ghost invariant = { λ a. IsStored a };
}

/// What is told of a node: its op, its inputs, how many outputs and regions it has, the place of
/// its region, and the nodes before and after it in pre-order.
#[derive(Clone, Copy)]
pub struct NodeView<'a> {
    pub op: Op,
    pub inputs: &'a [Origin],
    pub outputs: u32,
    pub regions: u32,
    pub home: Place,
    pub before: Option<u32>,
    pub after: Option<u32>,
}

/// The kind of an origin, and how many uses it has in its region.
#[derive(Clone, Copy, PartialEq, Eq, Debug)]
pub struct Uses {
    pub kind: Kind,
    pub count: u64,
}

impl Arena {
    /// The first and the last node in pre-order, or None where there is no node.
    pub fn ends<L: Ledger>(&self, looks: &mut Steps<L>) -> Option<(u32, u32)>
        ensures ends { result ≡ ends_of self.now }
        ensures looks { looks.new ≡ looks.old + 1 }
    {
        looks.add(1);
        let lowest = self.nodes.first();
        let first = self.nodes.number_of(lowest);
        let highest = self.nodes.last();
        let last = self.nodes.number_of(highest);
        pair_of(first, last)
    }

    /// What is told of the node of a number, or None where there is no such node.
    pub fn node<L: Ledger>(&self, node: u32, looks: &mut Steps<L>) -> Option<NodeView<'_>>
        ensures view { MatchOption result (view_of node self.now ≡ None) (λ v. view_of node self.now ≡ Some (record {
          op = v.op;
          inputs = v.inputs.now;
          outputs = v.outputs;
          regions = v.regions;
          home = v.home;
          before = v.before;
          after = v.after;
        })) }
        ensures looks { looks.new ≡ looks.old + 1 }
    {
        looks.add(1);
        let Some(at) = self.nodes.slot_of(node) else {
            return None;
        };
        let earlier = self.nodes.before(at);
        let before = self.nodes.number_of(earlier);
        let later = self.nodes.after(at);
        let after = self.nodes.number_of(later);
        Some(view_of(self.nodes.slot(at), self.inputs.list(at), before, after))
    }

    /// The result of an index of the region at a place, which is to be there.
    pub fn result<L: Ledger>(&self, home: Place, index: u32, looks: &mut Steps<L>) -> Origin
        requires { IsResult home index self.now }
        ensures origin { result_at home index self.now ≡ Some result }
        ensures looks { looks.new ≡ looks.old + 1 }
    {
        looks.add(1);
        match self.nodes.list_of(home) {
            Some(list) => origin_at(self.results.list(list), index as usize),
            None => unreachable!(),
        }
    }

    /// The kind of an origin in the region at a place, which is to be there, and how many uses it
    /// has in that region: inputs of its nodes, and its results.
    pub fn uses<L: Ledger>(&self, home: Place, of: Origin, looks: &mut Steps<L>) -> Uses
        requires { IsOrigin home of self.now }
        ensures kind { kind_in home of self.now ≡ Some result.kind }
        ensures count { result.count ≡ uses_in home of self.now }
        ensures looks { looks.new ≡ looks.old + 1 }
    {
        let used = Use { home, of };
        let inputs = self.inputs.count(used);
        let results = self.results.count(used);
        let count = inputs as u64 + results as u64;
        match self.nodes.kind_of(&self.args, home, of) {
            Some(kind) => {
                looks.add(1);
                Uses { kind, count }
            }
            None => unreachable!(),
        }
    }

    /// The first use of `from` in the region at a place, nodes in order and then results, becomes
    /// one of `to`. There is to be one, and the kinds are to agree.
    pub fn change_use<L: Ledger>(
        &mut self,
        home: Place,
        from: Origin,
        to: Origin,
        looks: &mut Steps<L>,
    )
        requires used { 0 < uses_in home from self.old }
        requires there { IsOrigin home to self.old }
        requires kinds { kind_in home from self.old ≡ kind_in home to self.old }
        ensures changed { self.new ≡ use_changed home from to self.old }
        ensures looks { looks.new ≡ looks.old + 1 }
    {
        looks.add(1);
        if self.is_input(home, from) {
            self.change_input(home, from, to);
        } else {
            self.change_result(home, from, to);
        }
    }

    // Whether an origin is used as an input in the region at a place.
    fn is_input(&self, home: Place, of: Origin) -> bool
        ensures { result ≡ nat_lt 0 (input_uses home of self.now.nodes) }
    {
        self.inputs.count(Use { home, of }) > 0
    }

    // The first input in the region at a place that comes from an origin comes from another one.
    fn change_input(&mut self, home: Place, from: Origin, to: Origin)
        requires used { 0 < input_uses home from self.old.nodes }
        requires there { IsOrigin home to self.old }
        ensures { self.new ≡ use_changed home from to self.old }
    {
        self.inputs.move_first(Use { home, of: from }, to);
    }

    // The first result of the region at a place that comes from an origin comes from another one.
    fn change_result(&mut self, home: Place, from: Origin, to: Origin)
        requires none { input_uses home from self.old.nodes ≡ 0 }
        requires used { 0 < uses_in home from self.old }
        requires there { IsOrigin home to self.old }
        ensures { self.new ≡ use_changed home from to self.old }
    {
        self.results.move_first(Use { home, of: from }, to);
    }

    /// A node goes with its regions. It is to be there, and its outputs are to have no use.
    pub fn remove_node<L: Ledger>(&mut self, node: u32, looks: &mut Steps<L>)
        requires { IsUnusedNode node self.old }
        ensures removed { self.new ≡ node_removed node self.old }
        ensures looks { looks.new ≡ looks.old + 1 }
    {
        looks.add(1);
        let Some(root) = self.nodes.slot_of(node) else {
            return;
        };
        go_with(&mut self.nodes, &mut self.inputs, &mut self.results, root);
    }

    /// An input of a node goes, which is to be there.
    pub fn remove_input<L: Ledger>(&mut self, node: u32, index: u32, looks: &mut Steps<L>)
        requires { HasInput node index self.old }
        ensures removed { self.new ≡ input_removed node index self.old }
        ensures looks { looks.new ≡ looks.old + 1 }
    {
        looks.add(1);
        let Some(at) = self.nodes.slot_of(node) else {
            return;
        };
        self.inputs.remove(at, index as usize);
    }

    /// An output of a node goes. It is to be there, and to have no use.
    pub fn remove_output<L: Ledger>(&mut self, node: u32, port: u32, looks: &mut Steps<L>)
        requires { HasOutput node port self.old }
        ensures removed { self.new ≡ output_removed node port self.old }
        ensures looks { looks.new ≡ looks.old + 1 }
    {
        looks.add(1);
        let Some(at) = self.nodes.slot_of(node) else {
            return;
        };
        let slot = self.nodes.slot(at);
        let home = home_of(slot);
        let count = output_count(slot);
        self.inputs.follow_output(home, node, port, count);
        self.results.follow_output(home, node, port, count);
        self.nodes.remove_output(at, port as usize);
    }

    /// An argument of the region at a place goes. It is to be there, and to have no use.
    pub fn remove_argument<L: Ledger>(&mut self, home: Place, index: u32, looks: &mut Steps<L>)
        requires there { HasArgument home index self.old }
        requires unused { IsUnused home (Arg index) self.old }
        ensures removed { self.new ≡ argument_removed home index self.old }
        ensures looks { looks.new ≡ looks.old + 1 }
    {
        looks.add(1);
        match home.node {
            None => self.remove_body_argument(home, index),
            Some(node) => self.remove_node_argument(home, node, index),
        }
    }

    // An argument of the body goes.
    fn remove_body_argument(&mut self, home: Place, index: u32)
        requires body { home.node ≡ None }
        requires there { HasArgument home index self.old }
        ensures { self.new ≡ argument_removed home index self.old }
    {
        let Some(count) = self.nodes.argument_count(&self.args, home) else {
            return;
        };
        self.inputs.follow_argument(home, index, count);
        self.results.follow_argument(home, index, count);
        self.args.remove(index as usize);
    }

    // An argument of a region of a node goes.
    fn remove_node_argument(&mut self, home: Place, node: u32, index: u32)
        requires node { home.node ≡ Some node }
        requires there { HasArgument home index self.old }
        ensures { self.new ≡ argument_removed home index self.old }
    {
        let Some(count) = self.nodes.argument_count(&self.args, home) else {
            return;
        };
        let Some(at) = self.nodes.slot_of(node) else {
            return;
        };
        self.inputs.follow_argument(home, index, count);
        self.results.follow_argument(home, index, count);
        self.nodes
            .remove_argument(at, home.region as usize, index as usize);
    }

    /// A result of the region at a place goes, which is to be there.
    pub fn remove_result<L: Ledger>(&mut self, home: Place, index: u32, looks: &mut Steps<L>)
        requires { IsResult home index self.old }
        ensures removed { self.new ≡ result_removed home index self.old }
        ensures looks { looks.new ≡ looks.old + 1 }
    {
        looks.add(1);
        let Some(list) = self.nodes.list_of(home) else {
            return;
        };
        self.results.remove(list, index as usize);
    }
}

// Both numbers, if both are there.
fn pair_of(first: Option<u32>, last: Option<u32>) -> Option<(u32, u32)>
    ensures { result ≡ pair_of first last }
{
    match (first, last) {
        (Some(first), Some(last)) => Some((first, last)),
        _ => None,
    }
}

// The origin of an index.
fn origin_at(origins: &[Origin], index: usize) -> Origin
    requires { index < length origins.now }
    ensures { slice_get origins.now index ≡ Some result }
{
    origins[index]
}

// What is told of the node of a slot.
fn view_of<'a>(
    slot: &Slot,
    inputs: &'a [Origin],
    before: Option<u32>,
    after: Option<u32>,
) -> NodeView<'a>
    requires { IsShort slot.now }
    ensures op { result.op ≡ slot.now.op }
    ensures inputs { result.inputs.now ≡ inputs.now }
    ensures outputs { result.outputs ≡ length slot.now.outputs }
    ensures regions { result.regions ≡ length slot.now.regions }
    ensures home { result.home ≡ slot.now.home }
    ensures before { result.before ≡ before }
    ensures after { result.after ≡ after }
{
    NodeView {
        op: slot.op,
        inputs,
        outputs: slot.outputs.count(),
        regions: slot.region_count(),
        home: slot.home,
        before,
        after,
    }
}

// The place of the node of a slot.
fn home_of(slot: &Slot) -> Place
    ensures { result ≡ slot.now.home }
{
    slot.home
}

// How many outputs the node of a slot has.
fn output_count(slot: &Slot) -> u32
    requires { IsShort slot.now }
    ensures { result ≡ length slot.now.outputs }
{
    slot.outputs.count()
}

// The number of the results of the first region of the node of a slot, and how many regions it has.
fn result_lists(slot: &Slot) -> (usize, usize)
    ensures first { result.0 ≡ slot.now.results }
    ensures count { result.1 ≡ length slot.now.regions }
{
    (slot.results, slot.regions.len())
}

// A node goes, and those behind it that are in regions of nodes that go, with all that they use.
fn go_with(nodes: &mut Nodes, inputs: &mut UseLists, results: &mut UseLists, root: usize)
    requires placed { ArePlaced nodes.old inputs.old results.old }
    requires there { IsThere root nodes.old }
    ensures { WentTogether root nodes.old inputs.old results.old nodes.new inputs.new results.new }
{
    let mut next = let_go(nodes, inputs, results, root, root);
    while let Some(at) = next {
        if !nodes.went_with(root, at) {
            return;
        }
        next = let_go(nodes, inputs, results, at, root);
    }
}

// A node that is there goes with that of another slot, and all that it uses. The answer is the slot
// of the node behind it.
fn let_go(
    nodes: &mut Nodes,
    inputs: &mut UseLists,
    results: &mut UseLists,
    at: usize,
    root: usize,
) -> Option<usize>
    requires there { IsThere at nodes.old }
    requires inputs { at < length inputs.old.lists }
    requires results { HasResults results.old.lists (slot_at nodes.old at) }
    ensures next { result ≡ after_in at (live_from 0 nodes.old) }
    ensures nodes { nodes.new ≡ slice_set nodes.old at (slot_gone root (slot_at nodes.old at)) }
    ensures inputs { inputs.new ≡ record inputs.old { lists = at_with at emptied inputs.old.lists } }
    ensures results { results.new ≡ record results.old {
      lists = cleared (slot_at nodes.old at).results (length (slot_at nodes.old at).regions) results.old.lists;
    } }
{
    let next = nodes.after(at);
    let (first, count) = result_lists(nodes.slot(at));
    nodes.let_go(at, root);
    inputs.clear(at);
    clear_lists(results, first, count);
    next
}

// So many lists from one on lose their origins.
fn clear_lists(lists: &mut UseLists, first: usize, count: usize)
    requires room { first + count < 2 ^ 64 }
    requires there { (k : ℕ) → k < count → first + k < length lists.old.lists }
    ensures { lists.new ≡ record lists.old { lists = cleared first count lists.old.lists } }
{
    for k in 0..count {
        lists.clear(first + k);
    }
}
