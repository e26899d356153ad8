//! Whether a lambda has a region that passes the test for a change.

ghost use Rattle.std.specs.Prelude.{◌≡◌, is_some};
ghost use Rattle.g_graph.specs.Change.{region_changed, some_region, some_in_node};

use crate::{Lambda, Node, Region};

/// The test for a change of a region.
pub trait CanChange {
    ghost use Rattle.std.specs.declared.option.Option.{Option};
    ghost use Rattle.g_graph.specs.Plain.{RegionTree};

    ghost changed: { Self → RegionTree → Option RegionTree };

    /// Whether the region can be changed so.
    fn can_change(&self, region: &Region) -> bool
        ensures { result ≡ is_some (changed self.now region.now) };
}

/// Whether the lambda's body or a region nested in it can be changed so. It takes no memory
/// but what the test takes. It takes time linear in the lambda, and the time of the tests.
#[tactic(auto, using(crate::proofs::lemmas::Change::region_can_change))]
pub fn can_change_lambda<C: CanChange>(lambda: &Lambda, test: &C) -> bool
    ensures { result ≡ is_some (region_changed (C.changed test.now) lambda.now.body) }
{
    region_can_change(&lambda.body, test)
}

#[cycle(can_change)]
fn region_can_change<C: CanChange>(region: &Region, test: &C) -> bool
    ensures { result ≡ some_region (λ r. is_some (C.changed test.now r)) region.now }
{
    if test.can_change(region) {
        return true;
    }
    for node in &region.nodes {
        if node_can_change(node, test) {
            return true;
        }
    }
    false
}

#[cycle(can_change)]
fn node_can_change<C: CanChange>(node: &Node, test: &C) -> bool
    ensures { result ≡ some_in_node (λ r. is_some (C.changed test.now r)) node.now }
{
    for region in &node.regions {
        if region_can_change(region, test) {
            return true;
        }
    }
    false
}
