//! The nodes that are stored, by number and in pre-order.

ghost use Rattle.std.specs.Prelude.{◌≡◌, ◌+◌, ◌<◌, ◌^◌, List, true, IfOk, IfSome, Some, None, length, option_and_then, option_map, slice_get, slice_set};
ghost use Rattle.std.specs.List.{remove};
ghost use Rattle.g_graph.specs.declared.op.Kind.{Kind};
ghost use Rattle.cell_lists.specs.Lists.{AreDistinct, first_or, last_or, before_in, after_in};
ghost use Rattle.g_arena_def.specs.Flat.{same_node, same_place};
ghost use Rattle.g_arena_use.specs.Plain.{
  AreShort,
  IsShort,
  IsThere,
  all_live,
  args_of,
  argument_gone,
  id_at,
  in_order,
  is_index,
  is_live,
  kind_at,
  live_from,
  live_slot,
  node_went,
  number_in,
  numbers_of,
  output_gone,
  output_in,
  results_number,
  slot_at,
  slot_gone,
};

use base::NoMemory;
use cell_lists::CellLists;
use g_arena_def::Place;
use g_graph::{Kind, Op, Origin};
use indexmap::IndexSet;
use std::alloc::Global;
use std::marker::Model;

/// Kinds in order. Contracts see their list.
#[derive(Drop)]
pub struct Kinds {
    pub list: Vec<Kind>,
}

impl Model for Kinds {
    ghost use Rattle.std.specs.Prelude.{List};
    ghost use Rattle.g_graph.specs.declared.op.Kind.{Kind};

    ghost Value = { List Kind };

    ghost view = { λ s. s.list.items };
}

/// A node: its outputs, the arguments of its regions, the number of the results of the first of
/// them, and the slot of the node that it went with, if it went. Contracts see it as a plain record.
#[derive(Drop)]
pub struct Slot {
    pub id: u32,
    pub op: Op,
    pub outputs: Kinds,
    pub regions: Vec<Kinds>,
    pub results: usize,
    pub home: Place,
    pub gone: Option<usize>,
}

impl Model for Slot {
    ghost use Rattle.g_arena_use.specs.Plain.{PlainSlot};

    ghost Value = { PlainSlot };

    ghost view = { λ s. record {
      id = s.id;
      op = s.op;
      outputs = s.outputs;
      regions = s.regions.items;
      results = s.results;
      home = s.home;
      gone = s.gone;
    } };
}

/// Nodes in pre-order, those that went too, with an index by number and the neighbours of those that
/// are there. Contracts see all of them.
#[derive(Drop)]
pub struct Nodes {
    slots: Vec<Slot>,
    // The numbers of the nodes of the slots.
    numbers: IndexSet<u32>,
    // One list, of the slots of the nodes that are there.
    order: CellLists,
}

impl Model for Nodes {
    ghost use Rattle.std.specs.Prelude.{List};
    ghost use Rattle.g_arena_use.specs.Plain.{PlainSlot};

    ghost Value = { List PlainSlot };

    ghost use Rattle.g_arena_use.specs.Numbered.{AreNumbered};

    ghost view = { λ s. s.slots.items };

    ghost invariant = { λ s. AreNumbered s };
}

impl Kinds {
    /// How many there are, which 32 bits are to count.
    pub fn count(&self) -> u32
        requires { length self.now < 2 ^ 32 }
        ensures { result ≡ length self.now }
    {
        self.list.len() as u32
    }

    /// The kind of an index, if it is there.
    pub fn kind(&self, index: usize) -> Option<Kind>
        ensures { result ≡ slice_get self.now index }
    {
        self.list.get(index).copied()
    }

    /// A kind goes.
    pub fn remove(&mut self, index: usize)
        requires { index < length self.old }
        ensures { self.new ≡ remove self.old index }
    {
        self.list.remove(index);
    }
}

impl Slot {
    /// Whether the node is there.
    pub fn is_live(&self) -> bool
        ensures { result ≡ is_live self.now }
    {
        self.gone.is_none()
    }

    /// How many regions there are, which 32 bits are to count.
    pub fn region_count(&self) -> u32
        requires { length self.now.regions < 2 ^ 32 }
        ensures { result ≡ length self.now.regions }
    {
        self.regions.len() as u32
    }

    /// The number of the results of a region, if it is there.
    pub fn list_of(&self, region: usize) -> Option<usize>
        requires { self.now.results + length self.now.regions < 2 ^ 64 }
        ensures { result ≡ number_in self.now region }
    {
        if region < self.regions.len() {
            Some(self.results + region)
        } else {
            None
        }
    }

    // The kind of an argument of a region, if it is there.
    fn argument(&self, region: usize, index: usize) -> Option<Kind>
        ensures { result ≡ option_and_then (λ ks. slice_get ks index) (slice_get self.now.regions region) }
    {
        match self.regions.get(region) {
            Some(args) => args.kind(index),
            None => None,
        }
    }

    // How many arguments a region has, if it is there.
    fn argument_count(&self, region: usize) -> Option<u32>
        requires { IsShort self.now }
        ensures { result ≡ option_map (λ ks. length ks) (slice_get self.now.regions region) }
    {
        match self.regions.get(region) {
            Some(args) => Some(args.count()),
            None => None,
        }
    }

    // The kind of an output, if it is there and stands in the region at a place.
    fn output(&self, home: Place, port: usize) -> Option<Kind>
        ensures { result ≡ output_in home port self.now }
    {
        if same_place(self.home, home) {
            self.outputs.kind(port)
        } else {
            None
        }
    }

    // Whether the node went with that of a slot.
    fn went(&self, root: usize) -> bool
        ensures { result ≡ is_index root self.now.gone }
    {
        match self.gone {
            Some(with) => with == root,
            None => false,
        }
    }

    // The node goes with that of a slot.
    fn let_go(&mut self, root: usize)
        ensures { self.new ≡ slot_gone root self.old }
    {
        self.gone = Some(root);
    }

    // An output goes.
    fn remove_output(&mut self, port: usize)
        requires { port < length self.old.outputs }
        ensures { self.new ≡ output_gone port self.old }
    {
        self.outputs.remove(port);
    }

    // An argument of a region goes.
    fn remove_argument(&mut self, region: usize, index: usize)
        requires region { region < length self.old.regions }
        requires there { (ks : List Kind) → slice_get self.old.regions region ≡ Some ks → index < length ks }
        ensures { self.new ≡ argument_gone region index self.old }
    {
        self.regions[region].remove(index);
    }
}

impl Nodes {
    /// These nodes, which are all there.
    pub fn new(alloc: Global, slots: Vec<Slot>, numbers: IndexSet<u32>) -> Result<Nodes, NoMemory>
        requires keys { numbers.keys ≡ numbers_of slots.items }
        requires once { AreDistinct (numbers_of slots.items) }
        requires live { all_live slots.items ≡ true }
        requires short { AreShort slots.items }
        ensures { IfOk result (λ made. made ≡ slots.items) }
    {
        let order = order_of(alloc, slots.len())?;
        Ok(Nodes {
            slots,
            numbers,
            order,
        })
    }

    /// How many slots there are.
    pub fn len(&self) -> usize
        ensures { result ≡ length self.now }
    {
        self.slots.len()
    }

    /// The slot of the node of a number, if there is such a node.
    pub fn slot_of(&self, node: u32) -> Option<usize>
        ensures slot { result ≡ live_slot node self.now }
        ensures within { IfSome result (λ at. at < length self.now) }
    {
        let Some(at) = self.numbers.get_index_of(&node) else {
            return None;
        };
        if self.slots[at].is_live() {
            Some(at)
        } else {
            None
        }
    }

    /// What a slot has.
    pub fn slot(&self, at: usize) -> &Slot
        requires { at < length self.now }
        ensures slot { result.now ≡ slot_at self.now at }
        ensures short { IsShort result.now }
    {
        &self.slots[at]
    }

    /// The first slot whose node is there.
    pub fn first(&self) -> Option<usize>
        ensures slot { result ≡ first_or None (live_from 0 self.now) }
        ensures there { IfSome result (λ at. IsThere at self.now) }
    {
        self.order.first(0)
    }

    /// The last one.
    pub fn last(&self) -> Option<usize>
        ensures slot { result ≡ last_or None (live_from 0 self.now) }
        ensures there { IfSome result (λ at. IsThere at self.now) }
    {
        self.order.last(0)
    }

    /// The one before a slot whose node is there.
    pub fn before(&self, at: usize) -> Option<usize>
        requires inside { at < length self.now }
        requires live { is_live (slot_at self.now at) ≡ true }
        ensures slot { result ≡ before_in None at (live_from 0 self.now) }
        ensures there { IfSome result (λ at. IsThere at self.now) }
    {
        let found = self.order.before(at);
        found
    }

    /// The one after a slot whose node is there.
    pub fn after(&self, at: usize) -> Option<usize>
        requires inside { at < length self.now }
        requires live { is_live (slot_at self.now at) ≡ true }
        ensures slot { result ≡ after_in at (live_from 0 self.now) }
        ensures there { IfSome result (λ at. IsThere at self.now) }
    {
        self.order.after(at)
    }

    /// A node that is there goes, with the node of a slot.
    pub fn let_go(&mut self, at: usize, root: usize)
        requires inside { at < length self.old }
        requires live { is_live (slot_at self.old at) ≡ true }
        ensures { self.new ≡ slice_set self.old at (slot_gone root (slot_at self.old at)) }
    {
        self.order.remove(at);
        self.slots[at].let_go(root);
    }

    /// Whether the node of a slot is in a region of one that went with the node of another.
    pub fn went_with(&self, root: usize, at: usize) -> bool
        requires { at < length self.now }
        ensures { result ≡ node_went root self.now (slot_at self.now at).home.node }
    {
        match home_of(&self.slots[at]) {
            None => false,
            Some(node) => match self.numbers.get_index_of(&node) {
                None => false,
                Some(above) => self.slots[above].went(root),
            },
        }
    }

    /// An output of the node of a slot goes.
    pub fn remove_output(&mut self, at: usize, port: usize)
        requires inside { at < length self.old }
        requires there { port < length (slot_at self.old at).outputs }
        ensures { self.new ≡ slice_set self.old at (output_gone port (slot_at self.old at)) }
    {
        self.slots[at].remove_output(port);
    }

    /// An argument of a region of the node of a slot goes.
    pub fn remove_argument(&mut self, at: usize, region: usize, index: usize)
        requires inside { at < length self.old }
        requires region { region < length (slot_at self.old at).regions }
        requires there { (ks : List Kind) → slice_get (slot_at self.old at).regions region ≡ Some ks → index < length ks }
        ensures { self.new ≡ slice_set self.old at (argument_gone region index (slot_at self.old at)) }
    {
        self.slots[at].remove_argument(region, index);
    }

    /// The number of the node of a slot.
    pub fn number_of(&self, slot: Option<usize>) -> Option<u32>
        requires { IfSome slot (λ at. IsThere at self.now) }
        ensures { result ≡ option_map (id_at self.now) slot }
    {
        match slot {
            Some(at) => Some(id_of(&self.slots[at])),
            None => None,
        }
    }

    /// The number of the list of the results of the region at a place, if it is there.
    pub fn list_of(&self, home: Place) -> Option<usize>
        ensures { result ≡ results_number home.node home.region self.now }
    {
        match home.node {
            None => { if home.region == 0 { Some(0) } else { None } }
            Some(node) => match self.slot_of(node) {
                Some(at) => self.slot(at).list_of(home.region as usize),
                None => None,
            },
        }
    }

    /// How many arguments the region at a place has, if it is there.
    pub fn argument_count(&self, body: &Kinds, home: Place) -> Option<u32>
        requires { length body.now < 2 ^ 32 }
        ensures { result ≡ option_map (λ ks. length ks) (args_of body.now home.node home.region self.now) }
    {
        match home.node {
            None => {
                if home.region == 0 {
                    Some(body.count())
                } else {
                    None
                }
            }
            Some(node) => match self.slot_of(node) {
                Some(at) => self.slot(at).argument_count(home.region as usize),
                None => None,
            },
        }
    }

    /// The kind of an origin in the region at a place, if it is there.
    pub fn kind_of(&self, body: &Kinds, home: Place, of: Origin) -> Option<Kind>
        ensures { result ≡ kind_at body.now home of self.now }
    {
        match of {
            Origin::Arg(index) => self.argument_kind(body, home, index as usize),
            Origin::Out { node, port } => self.output_kind(home, node, port as usize),
        }
    }

    // The kind of an output of a node, if it is there and stands in the region at a place.
    fn output_kind(&self, home: Place, node: u32, port: usize) -> Option<Kind>
        ensures { result ≡ option_and_then (λ i. output_in home port (slot_at self.now i)) (live_slot node self.now) }
    {
        match self.slot_of(node) {
            Some(at) => self.slot(at).output(home, port),
            None => None,
        }
    }

    // The kind of an argument of the region at a place, if it is there.
    fn argument_kind(&self, body: &Kinds, home: Place, index: usize) -> Option<Kind>
        ensures { result ≡ option_and_then (λ ks. slice_get ks index) (args_of body.now home.node home.region self.now) }
    {
        match home.node {
            None => {
                if home.region == 0 {
                    body.kind(index)
                } else {
                    None
                }
            }
            Some(node) => match self.slot_of(node) {
                Some(at) => self.slot(at).argument(home.region as usize, index),
                None => None,
            },
        }
    }
}

// One list of so many slots, in order.
fn order_of(alloc: Global, count: usize) -> Result<CellLists, NoMemory>
    ensures { IfOk result (λ order. order ≡ in_order count count) }
{
    let mut order = CellLists::new(alloc, 1, count)?;
    for at in 0..count {
        order.push_last(0, at);
    }
    Ok(order)
}

// The node in whose regions that of a slot is.
fn home_of(slot: &Slot) -> Option<u32>
    ensures { result ≡ slot.now.home.node }
{
    slot.home.node
}

// The number of the node of a slot.
fn id_of(slot: &Slot) -> u32
    ensures { result ≡ slot.now.id }
{
    slot.id
}

// Whether two places are the same.
fn same_place(a: Place, b: Place) -> bool
    ensures { result ≡ same_place a b }
{
    same_node(a.node, b.node) && a.region == b.region
}

fn same_node(a: Option<u32>, b: Option<u32>) -> bool
    ensures { result ≡ same_node a b }
{
    match (a, b) {
        (None, None) => true,
        (Some(a), Some(b)) => a == b,
        _ => false,
    }
}
