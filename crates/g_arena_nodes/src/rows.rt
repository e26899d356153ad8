//! Nodes with the place where they stand, and what they have of their regions.

ghost use Rattle.std.specs.Prelude.{◌≡◌, ◌+◌, ◌*◌, IfOk};
ghost use Rattle.g_arena_def.specs.Flat.{place_in};

use base::{NoMemory, Steps};
use g_arena_def::Place;
use g_graph::{Kind, Op, Origin};
use smallvec::SmallVec;
use std::marker::Model;
use std::sync::ledger::Ledger;

/// The arguments of a region by kind, and where its results come from. Contracts see it as a plain
/// record.
#[derive(Drop)]
pub struct RowRegion {
    pub args: Vec<Kind>,
    pub results: Vec<Origin>,
}

impl Model for RowRegion {
    ghost use Rattle.g_arena_def.specs.Flat.{FlatRegion};

    ghost Value = { FlatRegion };

    ghost view = { λ s. record { args = s.args.items; results = s.results.items } };
}

/// A node with the place where it stands. Contracts see it as a plain record.
#[derive(Drop)]
pub struct Row {
    pub id: u32,
    pub op: Op,
    pub inputs: SmallVec<Origin, 4>,
    pub outputs: Vec<Kind>,
    pub regions: Vec<RowRegion>,
    pub home: Place,
}

impl Model for Row {
    ghost use Rattle.g_arena_def.specs.Flat.{FlatNode};

    ghost Value = { FlatNode };

    ghost view = { λ s. record {
      id = s.id;
      op = s.op;
      inputs = s.inputs.items;
      outputs = s.outputs.items;
      regions = s.regions.items;
      home = s.home;
    } };
}

/// The body of a lambda and its nodes in pre-order.
#[derive(Drop)]
pub struct Rows {
    pub body: RowRegion,
    pub nodes: Vec<Row>,
}

/// Counts two looks for each of so many contents.
pub(crate) fn look_twice<L: Ledger>(looks: &mut Steps<L>, count: usize)
    ensures { looks.new ≡ looks.old + 2 * count }
{
    looks.add(count);
    looks.add(count);
}

/// The place of a region of a node.
pub(crate) fn place_of(node: u32, index: usize) -> Result<Place, NoMemory>
    ensures { IfOk result (λ place. place ≡ place_in node index) }
{
    match u32::try_from(index) {
        Ok(region) => Ok(Place {
            node: Some(node),
            region,
        }),
        Err(_) => Err(NoMemory),
    }
}
