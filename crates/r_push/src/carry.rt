//! The regions that the node leaves: each gets its longer lists, and reads the new argument.

ghost use Rattle.std.specs.Prelude.{◌≡◌, ◌<◌, ◌^◌, length, IsTrue};
ghost use Rattle.g_graph.specs.Plain.{regions_of, args_of};
ghost use Rattle.r_push.specs.Edit.{all_longer, with_lists, all_lengthened};
ghost use Rattle.r_push.specs.Rule.{can_all_count};

use crate::find::first_output;
use g_graph::{Origin, OriginReplaced, Region, redirect_region};
use r_edit::remove_node;
use std::alloc::Global;
use std::mem;

/// Each region takes its lists, which are one longer; the last argument is used instead of the node
/// of this number, and that node goes.
pub fn carry_all(
    alloc: Global,
    regions: &mut Vec<Region>,
    lists: &mut Vec<Region>,
    loops: bool,
    id: u32,
)
    requires count { IsTrue (can_all_count (regions_of regions.old.items)) }
    requires lists { regions_of lists.old.items ≡ all_longer loops (regions_of regions.old.items) }
    ensures { regions_of regions.new.items ≡
        all_lengthened id loops (regions_of regions.old.items) }
{
    for i in 0..regions.len() {
        let none = Region {
            args: Vec::new(alloc),
            nodes: Vec::new(alloc),
            results: Vec::new(alloc),
        };
        carry(&mut regions[i], mem::replace(&mut lists[i], none), id);
    }
}

fn carry(region: &mut Region, lists: Region, id: u32)
    requires { length (args_of region.old) < 2 ^ 32 }
    ensures { region.new ≡ with_lists id lists region.old }
{
    let last = Origin::Arg(region.args.len() as u32);
    let Region {
        args,
        nodes: _,
        results,
    } = lists;
    region.args = args;
    region.results = results;
    redirect_region(
        region,
        &OriginReplaced {
            from: first_output(id),
            to: last,
        },
    );
    remove_node(region, id);
}
