//! The edit of a Gamma's exit variables: some of them go.

ghost use Rattle.std.specs.Prelude.{◌≡◌};
ghost use Rattle.r_edit.specs.Exits.{node_giving, output_after, exits_kept};
ghost use Rattle.r_edit.specs.InPlace.{outputs_redirected, region_giving};

use crate::in_place::{NodeEdit, RegionEdit, edit_first, edit_regions, redirect_after};
use crate::places::{keep, place_after};
use g_graph::{Node, Origin, Redirect, Region, redirect_origins};

/// Of the Gamma of this number in the region some exit variables go: the results of its regions and
/// its outputs at the indexes where `stays` is false. What names later outputs follows. No output
/// that goes is read. It takes no memory, and time linear in the region's inputs and results and in
/// the results of the Gamma's regions, but for uses of its outputs, which take time linear in
/// `stays`.
#[tactic(auto, using(crate::proofs::lemmas::InPlace::giving_is))]
pub fn keep_exits(region: &mut Region, id: u32, stays: &[bool])
    ensures { region.new ≡ exits_kept id stays.now region.old }
{
    edit_first(&mut region.nodes, id, &ExitsKept { stays });
    redirect_outputs(region, id, stays);
}

/// In the region what reads an output of the node of this number reads it where it is once those
/// went for which `stays` is false.
pub(crate) fn redirect_outputs(region: &mut Region, id: u32, stays: &[bool])
    ensures { region.new ≡ outputs_redirected id (output_after id stays.now) region.old }
{
    let by = OutputAfter { node: id, stays };
    redirect_after(&mut region.nodes, id, &by);
    redirect_origins(region.results.as_mut_slice(), &by);
}

#[derive(Drop)]
struct OutputAfter<'a> {
    node: u32,
    stays: &'a [bool],
}

impl Redirect for OutputAfter<'_> {
    ghost redirected = { λ m. output_after m.node m.stays.now };

    fn redirect(&self, origin: Origin) -> Origin {
        match origin {
            Origin::Arg(_) => origin,
            Origin::Out { node, port } => {
                if self.node == node {
                    Origin::Out {
                        node,
                        port: place_after(self.stays, port),
                    }
                } else {
                    origin
                }
            }
        }
    }
}

/// Of a Gamma the exit variables go for which `stays` is false.
#[derive(Drop)]
pub(crate) struct ExitsKept<'a> {
    pub(crate) stays: &'a [bool],
}

impl NodeEdit for ExitsKept<'_> {
    ghost node_edited = { λ e. node_giving e.stays.now };

    #[tactic(auto, using(crate::proofs::lemmas::InPlace::regions_giving_is))]
    fn edit_node(&self, node: &mut Node) {
        edit_regions(&mut node.regions, self);
    }
}

impl RegionEdit for ExitsKept<'_> {
    ghost region_edited = { λ e. region_giving e.stays.now };

    fn edit_region(&self, region: &mut Region) {
        keep(&mut region.results, self.stays);
    }
}
