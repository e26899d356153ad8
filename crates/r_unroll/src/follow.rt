//! The edit of a loop's region.

ghost use Rattle.std.specs.Prelude.{◌≡◌, [], OnOk, OnErr, IsTrue, is_some, length};
ghost use Rattle.std.specs.declared.option.Option.TheVariants.{Some};
ghost use Rattle.g_graph.specs.declared.op.Op.TheVariants.{Undef};
ghost use Rattle.g_graph.specs.Plain.{node, no_regions, regions_of};
ghost use Rattle.r_unroll.specs.Edit.{only_followed, followed_at};
ghost use Rattle.r_unroll.specs.Rule.{unroll_here, followed_by};

use base::NoMemory;
use g_graph::{Node, Op, Origin, Region, node_index};
use smallvec::SmallVec;
use std::alloc::Global;

/// What stands where a node was taken from.
pub fn nothing(alloc: Global) -> Node
    ensures { result ≡ node 0 Undef [] no_regions }
{
    Node {
        id: 0,
        op: Op::Undef,
        inputs: SmallVec::new(alloc),
        regions: Vec::new(alloc),
    }
}

/// Gives the region of the loop of this number a last node and results.
pub fn follow_at(
    region: &mut Region,
    values: u64,
    next: u32,
    id: u32,
    last: Node,
    results: Vec<Origin>,
) -> Result<(), NoMemory>
    requires { IsTrue (is_some (unroll_here values next id region.old)) }
    ensures ok { OnOk result (followed_at values next id last results.items region.old ≡
        Some region.new) }
    ensures err { OnErr result (region.new ≡ region.old) }
{
    match node_index(&region.nodes, id) {
        Some(index) => follow_only(&mut region.nodes[index].regions, last, results),
        None => unreachable!(),
    }
}

fn follow_only(regions: &mut Vec<Region>, last: Node, results: Vec<Origin>) -> Result<(), NoMemory>
    requires { length regions.old.items ≡ 1 }
    ensures ok { OnOk result (regions_of regions.new.items ≡
        only_followed last results.items (regions_of regions.old.items)) }
    ensures err { OnErr result (regions.new.items ≡ regions.old.items) }
{
    follow(&mut regions[0], last, results)
}

/// Gives a region a last node and results.
pub fn follow(region: &mut Region, last: Node, results: Vec<Origin>) -> Result<(), NoMemory>
    ensures ok { OnOk result (region.new ≡ followed_by last results.items region.old) }
    ensures err { OnErr result (region.new ≡ region.old) }
{
    region.nodes.push(last)?;
    region.results = results;
    Ok(())
}
