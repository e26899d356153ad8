//! The edit of a Gamma's entry variables: some of them go.

ghost use Rattle.std.specs.Prelude.{◌≡◌, ◌≤◌, ◌+◌};
ghost use Rattle.r_edit.specs.Entries.{argument_after, node_taking, entries_kept, AreGone};
ghost use Rattle.r_edit.specs.InPlace.{region_taking};
ghost use Rattle.r_edit.specs.Places.{place_after};

use crate::in_place::{NodeEdit, RegionEdit, edit_first, edit_regions};
use crate::places::{keep, keep_inputs_after_first, place_after, stays_at};
use g_graph::{Node, Origin, Redirect, Region, redirect_region};

/// Of the Gamma of this number in the region some entry variables go: its inputs after the
/// predicate and the arguments of its regions at the indexes where `stays` is false. What names
/// later arguments follows. No region reads an argument that goes. It takes no memory, and time
/// linear in the region's nodes and in the inputs and results of the Gamma's regions, but for uses
/// of arguments, which take time linear in `stays`.
#[tactic(auto, using(crate::proofs::lemmas::InPlace::taking_is))]
pub fn keep_entries(region: &mut Region, id: u32, stays: &[bool])
    ensures { region.new ≡ entries_kept id stays.now region.old }
{
    edit_first(&mut region.nodes, id, &EntriesKept { stays, gone: &[] });
}

/// Of a Gamma the entry variables go for which `stays` is false, as `keep_entries` says. A use of
/// an argument that `room` has a place for takes no more time than another one.
pub fn keep_entries_of(node: &mut Node, stays: &[bool], room: &mut [usize])
    ensures { node.new ≡ node_taking stays.now node.old }
{
    count_gone(stays, room);
    EntriesKept { stays, gone: room }.edit_node(node);
}

// Of each place of the list, how many places before it go.
fn count_gone(stays: &[bool], gone: &mut [usize])
    ensures { AreGone stays.now gone.new }
{
    let mut count = 0;
    for place in 0..gone.len() {
        gone[place] = count;
        count += gone_at(stays, place);
    }
}

// How many go at a place.
fn gone_at(stays: &[bool], place: usize) -> usize
    ensures value { result + place_after stays.now (place + 1) ≡ 1 + place_after stays.now place }
    ensures small { result ≤ 1 }
{
    if stays_at(stays, place) { 0 } else { 1 }
}

/// Where an argument is found once those went for which `stays` is false.
#[derive(Drop)]
pub(crate) struct ArgumentAfter<'a> {
    pub(crate) stays: &'a [bool],
}

impl Redirect for ArgumentAfter<'_> {
    ghost redirected = { λ m. argument_after m.stays.now };

    fn redirect(&self, origin: Origin) -> Origin {
        match origin {
            Origin::Arg(index) => Origin::Arg(place_after(self.stays, index)),
            Origin::Out { .. } => origin,
        }
    }
}

// The same, where for the first arguments it is counted how many go before each.
#[derive(Drop)]
struct ArgumentCounted<'a> {
    stays: &'a [bool],
    gone: &'a [usize],
    ghost counted: { AreGone stays.now gone.now },
}

impl Redirect for ArgumentCounted<'_> {
    ghost redirected = { λ m. argument_after m.stays.now };

    fn redirect(&self, origin: Origin) -> Origin {
        match origin {
            Origin::Arg(index) => Origin::Arg(self.place_after(index)),
            Origin::Out { .. } => origin,
        }
    }
}

impl ArgumentCounted<'_> {
    fn place_after(&self, index: u32) -> u32
        ensures { result ≡ place_after self.now.stays.now index }
    {
        match self.gone.get(index as usize) {
            Some(gone) => (index as usize - *gone) as u32,
            None => place_after(self.stays, index),
        }
    }
}

#[derive(Drop)]
struct EntriesKept<'a> {
    stays: &'a [bool],
    gone: &'a [usize],
    ghost counted: { AreGone stays.now gone.now },
}

impl NodeEdit for EntriesKept<'_> {
    ghost node_edited = { λ e. node_taking e.stays.now };

    #[tactic(auto, using(crate::proofs::lemmas::InPlace::regions_taking_is))]
    fn edit_node(&self, node: &mut Node) {
        keep_inputs_after_first(&mut node.inputs, self.stays);
        edit_regions(&mut node.regions, self);
    }
}

impl RegionEdit for EntriesKept<'_> {
    ghost region_edited = { λ e. region_taking e.stays.now };

    fn edit_region(&self, region: &mut Region) {
        keep(&mut region.args, self.stays);
        redirect_region(
            region,
            &ArgumentCounted {
                stays: self.stays,
                gone: self.gone,
            },
        );
    }
}
