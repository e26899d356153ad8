//! An arena of a lambda, and the lambda of an arena.

ghost use Rattle.std.specs.Prelude.{◌≡◌, ℕ, ◌+◌, ◌*◌, ◌^◌, ◌<◌, ◌≤◌, List, [], ◌∷◌, ◌++◌, false, Some, IfOk, OnOk, length, slice_get};
ghost use Rattle.cell_lists.specs.Lists.{is_in, AreDistinct};
ghost use Rattle.g_graph.specs.declared.op.Kind.{Kind};
ghost use Rattle.g_graph.specs.declared.op.Origin.TheVariants.{Arg, Out};
ghost use Rattle.g_graph.specs.Plain.{PlainLambda};
ghost use Rattle.g_graph.specs.WellFormed.{IsWellFormed};
ghost use Rattle.g_arena_def.specs.Flat.{StandsFor, body_place, place_in, in_region, region_flat};
ghost use Rattle.g_arena_def.specs.Size.{lambda_size};
ghost use Rattle.g_arena_use.specs.UseCells.{IsNamed};
ghost use Rattle.g_arena_use.specs.Lists.{AllNamed, AreNamedIn, origins_in, use_in};
ghost use Rattle.g_arena_use.specs.Plain.{AreShort, IsShort, PlainSlot, is_live};
ghost use Rattle.g_arena_use.specs.Seen.{regions_seen, slot_seen, nodes_seen};
ghost use Rattle.g_arena.specs.Rows.{HasResults, HaveResults, with_row};
ghost use Rattle.g_arena.specs.Stores.{
  AreCounted,
  AreCovered,
  AreKept,
  AreMade,
  AreParts,
  AreReady,
  AreRows,
  AreStored,
  IsSlotNamed,
  args_of,
  ids_of,
  inputs_list,
  lists_of,
  slot_of,
};

use crate::Arena;
use base::{NoMemory, Steps};
use g_arena_def::Place;
use g_arena_nodes::{Row, RowRegion, Rows, region_of, rows_of};
use g_arena_use::{Kinds, Nodes, OriginList, Slot, Use, UseLists, UseNames};
use g_graph::{Kind, Lambda, Origin};
use indexmap::IndexSet;
use smallvec::SmallVec;
use std::alloc::Global;
use std::sync::ledger::Ledger;

// The place of the body.
const BODY: Place = Place {
    node: None,
    region: 0,
};

impl Arena {
    /// The arena that stands for a lambda. It costs two looks for each value of the lambda and each
    /// input of a node. After NoMemory the lambda is given up. That is also the answer where a region
    /// has more than 4294967295 arguments, or a node so many outputs or regions: the index has no room
    /// for them.
    pub fn of<L: Ledger>(
        alloc: Global,
        lambda: Lambda,
        looks: &mut Steps<L>,
    ) -> Result<Arena, NoMemory>
        requires { IsWellFormed lambda }
        ensures stands { IfOk result (λ a. StandsFor a lambda) }
        ensures cost { OnOk result (looks.new ≡ looks.old + 2 * lambda_size lambda) }
        ensures looks { looks.new ≤ looks.old + 2 * lambda_size lambda }
    {
        let rows = rows_of(alloc, &lambda.body, looks)?;
        let parts = parts_of(alloc, rows)?;
        Ok(arena_of(alloc, lambda, parts))
    }

    /// The lambda that an arena stands for, if it stands for one. It costs two looks for each value of
    /// that lambda and each input of a node.
    pub fn into_lambda<L: Ledger>(self, looks: &mut Steps<L>) -> Result<Lambda, NoMemory>
        ensures stands { (l : PlainLambda) → StandsFor self l → IfOk result (λ r. r ≡ l) }
        ensures cost { (l : PlainLambda) → StandsFor self l
            → OnOk result (looks.new ≡ looks.old + 2 * lambda_size l) }
        ensures looks { (l : PlainLambda) → StandsFor self l
            → looks.new ≤ looks.old + 2 * lambda_size l }
    {
        let Arena {
            alloc,
            number,
            params,
            objects,
            next,
            args,
            nodes,
            inputs,
            results,
        } = self;
        let rows = live_rows(alloc, &nodes, &inputs, &results)?;
        let body = region_row(alloc, &args, results.list(0))?;
        let tree = region_of(alloc, Rows { body, nodes: rows }, looks)?;
        Ok(Lambda {
            number,
            params,
            objects,
            body: tree,
            next,
        })
    }
}

// What is indexed of a lambda.
#[derive(Drop)]
struct Parts {
    args: Kinds,
    nodes: Nodes,
    inputs: UseLists,
    results: UseLists,
}

// The arena of a lambda, of which this is indexed.
fn arena_of(alloc: Global, lambda: Lambda, parts: Parts) -> Arena
    requires { AreParts (region_flat lambda.body) (in_region body_place lambda.body) parts.args parts.nodes parts.inputs parts.results }
    ensures { StandsFor result lambda }
{
    let Lambda {
        number,
        params,
        objects,
        next,
        ..
    } = lambda;
    let Parts {
        args,
        nodes,
        inputs,
        results,
    } = parts;
    Arena {
        alloc,
        number,
        params,
        objects,
        next,
        args,
        nodes,
        inputs,
        results,
    }
}

// What is indexed of a list of nodes.
fn parts_of(alloc: Global, rows: Rows) -> Result<Parts, NoMemory>
    requires { AreRows rows.nodes.items }
    ensures { IfOk result (λ p. AreParts rows.body rows.nodes.items p.args p.nodes p.inputs p.results) }
{
    let Rows { body, nodes } = rows;
    let RowRegion { args, results } = body;
    let stored = stored_of(alloc, results.as_slice(), nodes)?;
    let args = kinds_of(args)?;
    let parts = indexed(alloc, args, stored)?;
    Ok(parts)
}

// What is stored of the nodes so far.
#[derive(Drop)]
struct Stored {
    alloc: Global,
    slots: Vec<Slot>,
    numbers: IndexSet<u32>,
    inputs: Vec<OriginList>,
    results: Vec<OriginList>,
}

// The index of what is stored of a list of nodes.
fn indexed(alloc: Global, args: Kinds, stored: Stored) -> Result<Parts, NoMemory>
    requires short { length args < 2 ^ 32 }
    requires ready { AreReady stored.slots.items stored.numbers.keys }
    ensures { IfOk result (λ p. AreMade args stored.slots.items stored.inputs.items stored.results.items p.args p.nodes p.inputs p.results) }
{
    let Stored {
        slots,
        numbers,
        inputs,
        results,
        ..
    } = stored;
    has_room(&inputs, &results)?;
    let names = names_of(alloc, &args, &slots, &inputs)?;
    let inputs = UseLists::new(alloc, names, inputs)?;
    let names = names_of(alloc, &args, &slots, &results)?;
    let results = UseLists::new(alloc, names, results)?;
    let nodes = Nodes::new(alloc, slots, numbers)?;
    Ok(Parts {
        args,
        nodes,
        inputs,
        results,
    })
}

// Whether 64 bits count the uses in these lists.
fn has_room(inputs: &[OriginList], results: &[OriginList]) -> Result<(), NoMemory>
    ensures { OnOk result (origins_in inputs.now + origins_in results.now < 2 ^ 64) }
{
    let first = room_of(inputs)?;
    let second = room_of(results)?;
    match first.checked_add(second) {
        Some(_) => Ok(()),
        None => Err(NoMemory),
    }
}

// How many uses there are in these lists.
fn room_of(lists: &[OriginList]) -> Result<usize, NoMemory>
    ensures { IfOk result (λ room. room ≡ origins_in lists.now) }
{
    let mut room: usize = 0;
    for list in lists {
        room = match room.checked_add(list.origins.len()) {
            Some(sum) => sum,
            None => return Err(NoMemory),
        };
    }
    Ok(room)
}

// Kinds, of which 32 bits count as many as there are.
fn kinds_of(list: Vec<Kind>) -> Result<Kinds, NoMemory>
    ensures kinds { IfOk result (λ kinds. kinds ≡ list.items) }
    ensures short { OnOk result (length list.items < 2 ^ 32) }
{
    is_short(list.len())?;
    Ok(Kinds { list })
}

// Whether 32 bits count so many.
fn is_short(count: usize) -> Result<(), NoMemory>
    ensures { OnOk result (count < 2 ^ 32) }
{
    match u32::try_from(count) {
        Ok(_) => Ok(()),
        Err(_) => Err(NoMemory),
    }
}

// What is stored of the nodes of a list, and of the results of the body.
fn stored_of(alloc: Global, results: &[Origin], rows: Vec<Row>) -> Result<Stored, NoMemory>
    requires { AreDistinct (ids_of rows.items) }
    ensures { IfOk result (λ s. AreStored results.now rows.items s.slots.items s.numbers.keys s.inputs.items s.results.items) }
{
    let mut stored = new_stored(alloc, results)?;
    for row in rows {
        stored.add(row)?;
    }
    Ok(stored)
}

// No nodes, and the results of the body.
fn new_stored(alloc: Global, results: &[Origin]) -> Result<Stored, NoMemory>
    ensures { IfOk result (λ s. AreStored results.now [] s.slots.items s.numbers.keys s.inputs.items s.results.items) }
{
    let origins = SmallVec::from_slice(alloc, results)?;
    let mut lists = Vec::new(alloc);
    lists.push(OriginList {
        home: BODY,
        origins,
    })?;
    Ok(Stored {
        alloc,
        slots: Vec::new(alloc),
        numbers: IndexSet::new(alloc),
        inputs: Vec::new(alloc),
        results: lists,
    })
}

impl Stored {
    // One more node.
    fn add(&mut self, row: Row) -> Result<(), NoMemory>
        requires { is_in row.id self.old.numbers.keys ≡ false }
        ensures slots { OnOk result (self.new.slots.items ≡ self.old.slots.items ++ slot_of (length self.old.results.items) row ∷ []) }
        ensures numbers { OnOk result (self.new.numbers.keys ≡ self.old.numbers.keys ++ row.id ∷ []) }
        ensures inputs { OnOk result (self.new.inputs.items ≡ self.old.inputs.items ++ inputs_list row ∷ []) }
        ensures results { OnOk result (self.new.results.items ≡ self.old.results.items ++ lists_of row.id 0 row.regions) }
        ensures short { OnOk result (IsShort (slot_of (length self.old.results.items) row)) }
    {
        let Row {
            id,
            op,
            inputs,
            outputs,
            regions,
            home,
        } = row;
        let first = self.results.len();
        let regions = add_regions(self.alloc, &mut self.results, id, regions)?;
        is_short(regions.len())?;
        self.numbers.insert(id)?;
        self.inputs.push(OriginList {
            home,
            origins: inputs,
        })?;
        let outputs = kinds_of(outputs)?;
        self.slots.push(Slot {
            id,
            op,
            outputs,
            regions,
            results: first,
            home,
            gone: None,
        })?;
        Ok(())
    }
}

// The results of the regions of a node come to the lists. The answer are their arguments.
fn add_regions(
    alloc: Global,
    lists: &mut Vec<OriginList>,
    node: u32,
    parts: Vec<RowRegion>,
) -> Result<Vec<Kinds>, NoMemory>
    ensures args { IfOk result (λ regions. regions.items ≡ args_of parts.items) }
    ensures lists { OnOk result (lists.new.items ≡ lists.old.items ++ lists_of node 0 parts.items) }
    ensures counted { OnOk result (AreCounted (args_of parts.items)) }
{
    let mut regions = Vec::new(alloc);
    for part in parts {
        let place = place_of(node, regions.len())?;
        let args = add_region(lists, place, part)?;
        regions.push(args)?;
    }
    Ok(regions)
}

// The place of a region of a node.
fn place_of(node: u32, index: usize) -> Result<Place, NoMemory>
    ensures { IfOk result (λ place. place ≡ place_in node index) }
{
    match u32::try_from(index) {
        Ok(region) => Ok(Place {
            node: Some(node),
            region,
        }),
        Err(_) => Err(NoMemory),
    }
}

// The results of the region at a place come to the lists. The answer are its arguments.
fn add_region(lists: &mut Vec<OriginList>, home: Place, part: RowRegion) -> Result<Kinds, NoMemory>
    ensures args { IfOk result (λ args. args ≡ part.args) }
    ensures lists { OnOk result (lists.new.items ≡ lists.old.items ++ record { home = home; origins = part.results } ∷ []) }
    ensures short { OnOk result (length part.args < 2 ^ 32) }
{
    let RowRegion { args, results } = part;
    let origins = SmallVec::from_vec(results);
    lists.push(OriginList { home, origins })?;
    kinds_of(args)
}

// The uses that there can be, and those that there are in these lists.
fn names_of(
    alloc: Global,
    args: &Kinds,
    slots: &[Slot],
    lists: &[OriginList],
) -> Result<UseNames, NoMemory>
    requires args { length args.now < 2 ^ 32 }
    requires slots { AreShort slots.now }
    ensures { IfOk result (λ names. AreCovered args.now slots.now lists.now names) }
{
    let mut names = UseNames::new(alloc);
    name_args(&mut names, args, BODY)?;
    name_slots(&mut names, slots)?;
    name_lists(&mut names, lists)?;
    Ok(names)
}

// The uses of the arguments of the region at a place.
fn name_args(names: &mut UseNames, args: &Kinds, home: Place) -> Result<(), NoMemory>
    requires { length args.now < 2 ^ 32 }
    ensures kept { OnOk result (AreKept names.old names.new) }
    ensures named { OnOk result ((k : ℕ) → k < length args.now → IsNamed (use_in home (Arg k)) names.new) }
{
    for index in 0..args.count() {
        names.add(Use {
            home,
            of: Origin::Arg(index),
        })?;
    }
    Ok(())
}

// The uses of the outputs of the nodes of these slots, and of the arguments of their regions.
fn name_slots(names: &mut UseNames, slots: &[Slot]) -> Result<(), NoMemory>
    requires { AreShort slots.now }
    ensures kept { OnOk result (AreKept names.old names.new) }
    ensures named { OnOk result ((i : ℕ) (s : PlainSlot) → slice_get slots.now i ≡ Some s → IsSlotNamed names.new s) }
{
    for (i, slot) in slots.iter().enumerate() {
        name_outputs(names, slot)?;
        name_regions(names, slot)?;
    }
    Ok(())
}

// The uses of the outputs of the node of a slot.
fn name_outputs(names: &mut UseNames, slot: &Slot) -> Result<(), NoMemory>
    requires { IsShort slot.now }
    ensures kept { OnOk result (AreKept names.old names.new) }
    ensures named { OnOk result ((q : ℕ) → q < length slot.now.outputs → IsNamed (use_in slot.now.home (Out slot.now.id q)) names.new) }
{
    for port in 0..output_count(slot) {
        names.add(output_use(slot, port))?;
    }
    Ok(())
}

// How many outputs the node of a slot has.
fn output_count(slot: &Slot) -> u32
    requires { IsShort slot.now }
    ensures { result ≡ length slot.now.outputs }
{
    slot.outputs.count()
}

// The use of an output of the node of a slot.
fn output_use(slot: &Slot, port: u32) -> Use
    ensures { result ≡ use_in slot.now.home (Out slot.now.id port) }
{
    let of = Origin::Out {
        node: slot.id,
        port,
    };
    Use {
        home: slot.home,
        of,
    }
}

// The uses of the arguments of the regions of the node of a slot.
fn name_regions(names: &mut UseNames, slot: &Slot) -> Result<(), NoMemory>
    requires { IsShort slot.now }
    ensures kept { OnOk result (AreKept names.old names.new) }
    ensures named { OnOk result ((r k : ℕ) (ks : List Kind) → slice_get slot.now.regions r ≡ Some ks → k < length ks → IsNamed (use_in (place_in slot.now.id r) (Arg k)) names.new) }
{
    name_parts(names, slot.id, &slot.regions)
}

// The uses of the arguments of these regions of a node.
fn name_parts(names: &mut UseNames, node: u32, parts: &[Kinds]) -> Result<(), NoMemory>
    requires { AreCounted parts.now }
    ensures kept { OnOk result (AreKept names.old names.new) }
    ensures named { OnOk result ((r k : ℕ) (ks : List Kind) → slice_get parts.now r ≡ Some ks → k < length ks → IsNamed (use_in (place_in node r) (Arg k)) names.new) }
{
    for (r, args) in parts.iter().enumerate() {
        let home = place_of(node, r)?;
        name_args(names, args, home)?;
    }
    Ok(())
}

// The uses in these lists.
fn name_lists(names: &mut UseNames, lists: &[OriginList]) -> Result<(), NoMemory>
    ensures kept { OnOk result (AreKept names.old names.new) }
    ensures named { OnOk result (AllNamed names.new lists.now) }
{
    for (i, list) in lists.iter().enumerate() {
        name_origins(names, list.home, list.origins.as_slice())?;
    }
    Ok(())
}

// The uses of these origins in the region at a place.
fn name_origins(names: &mut UseNames, home: Place, origins: &[Origin]) -> Result<(), NoMemory>
    ensures kept { OnOk result (AreKept names.old names.new) }
    ensures named { OnOk result (AreNamedIn names.new home origins.now) }
{
    for (k, of) in origins.iter().enumerate() {
        names.add(Use { home, of: *of })?;
    }
    Ok(())
}

// The nodes that are there.
fn live_rows(
    alloc: Global,
    nodes: &Nodes,
    inputs: &UseLists,
    results: &UseLists,
) -> Result<Vec<Row>, NoMemory>
    requires inputs { length inputs.now.lists ≡ length nodes.now }
    requires results { HaveResults results.now.lists nodes.now }
    ensures { IfOk result (λ rows. rows.items ≡ nodes_seen inputs.now.lists results.now.lists nodes.now) }
{
    let mut rows = Vec::new(alloc);
    for at in 0..inputs.len() {
        add_row(alloc, &mut rows, nodes.slot(at), inputs.list(at), results)?;
    }
    Ok(rows)
}

// One more node, if it is there.
fn add_row(
    alloc: Global,
    rows: &mut Vec<Row>,
    slot: &Slot,
    inputs: &[Origin],
    results: &UseLists,
) -> Result<(), NoMemory>
    requires short { IsShort slot.now }
    requires results { HasResults results.now.lists slot.now }
    ensures { OnOk result (rows.new.items ≡ with_row (is_live slot.now) (slot_seen inputs.now results.now.lists slot.now) rows.old.items) }
{
    if slot.is_live() {
        let row = row_of(alloc, slot, inputs, results)?;
        rows.push(row)?;
    }
    Ok(())
}

// A node that is stored.
fn row_of(
    alloc: Global,
    slot: &Slot,
    inputs: &[Origin],
    results: &UseLists,
) -> Result<Row, NoMemory>
    requires short { IsShort slot.now }
    requires results { HasResults results.now.lists slot.now }
    ensures { IfOk result (λ row. row ≡ slot_seen inputs.now results.now.lists slot.now) }
{
    let regions = region_rows(alloc, slot.results, &slot.regions, results)?;
    let outputs = copy_kinds(alloc, &slot.outputs)?;
    let inputs = SmallVec::from_slice(alloc, inputs)?;
    Ok(Row {
        id: slot.id,
        op: slot.op,
        inputs,
        outputs,
        regions,
        home: slot.home,
    })
}

// The regions of a node, whose results are lists from one on.
fn region_rows(
    alloc: Global,
    first: usize,
    parts: &[Kinds],
    results: &UseLists,
) -> Result<Vec<RowRegion>, NoMemory>
    requires room { first + length parts.now < 2 ^ 64 }
    requires results { (r : ℕ) → r < length parts.now → first + r < length results.now.lists }
    ensures { IfOk result (λ rows. rows.items ≡ regions_seen results.now.lists first parts.now) }
{
    let mut rows = Vec::new(alloc);
    for (k, args) in parts.iter().enumerate() {
        rows.push(region_row(alloc, args, results.list(first + k))?)?;
    }
    Ok(rows)
}

// A region with these arguments and results.
fn region_row(alloc: Global, args: &Kinds, results: &[Origin]) -> Result<RowRegion, NoMemory>
    ensures { IfOk result (λ row. row ≡ record { args = args.now; results = results.now }) }
{
    let args = copy_kinds(alloc, args)?;
    let results = Vec::from_slice(alloc, results)?;
    Ok(RowRegion { args, results })
}

// These kinds.
fn copy_kinds(alloc: Global, kinds: &Kinds) -> Result<Vec<Kind>, NoMemory>
    ensures { IfOk result (λ copy. copy.items ≡ kinds.now) }
{
    let copy = Vec::from_slice(alloc, kinds.list.as_slice())?;
    Ok(copy)
}
