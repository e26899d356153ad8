//! The edit of a Theta's loop variables: some of them go.

ghost use Rattle.std.specs.Prelude.{◌≡◌};
ghost use Rattle.r_edit.specs.Variables.{region_looping, node_looping, variables_kept};

use crate::entries::ArgumentAfter;
use crate::exits::redirect_outputs;
use crate::in_place::{NodeEdit, edit_first};
use crate::places::{keep, keep_after_first, keep_inputs};
use g_graph::{Node, Region, redirect_region};

/// Of the Theta of this number in the region some loop variables go: its inputs, arguments and
/// outputs at the indexes where `stays` is false, and its results at those that follow them. What
/// names later ones follows. No output that goes is read, and at most results that go read an
/// argument that goes. It takes no memory, and time linear in the inputs and results of the region
/// and of the Theta's region, but for uses of outputs and arguments, which take time linear in
/// `stays`.
#[tactic(auto, using(crate::proofs::lemmas::InPlace::looping_is))]
pub fn keep_variables(region: &mut Region, id: u32, stays: &[bool])
    ensures { region.new ≡ variables_kept id stays.now region.old }
{
    edit_first(&mut region.nodes, id, &VariablesKept { stays });
    redirect_outputs(region, id, stays);
}

#[derive(Drop)]
struct VariablesKept<'a> {
    stays: &'a [bool],
}

impl NodeEdit for VariablesKept<'_> {
    ghost node_edited = { λ e. node_looping e.stays.now };

    fn edit_node(&self, node: &mut Node) {
        if node.regions.len() == 1 {
            keep_inputs(&mut node.inputs, self.stays);
            keep_looping(&mut node.regions[0], self.stays);
        }
    }
}

fn keep_looping(region: &mut Region, stays: &[bool])
    ensures { region.new ≡ region_looping stays.now region.old }
{
    keep(&mut region.args, stays);
    keep_after_first(&mut region.results, stays);
    redirect_region(region, &ArgumentAfter { stays });
}
