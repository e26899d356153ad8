//! A change made in the first region that admits it, in pre-order.

ghost use Rattle.std.specs.Prelude.{◌≡◌, MatchBool, IfOk, OnOk, OnErr, is_some};
ghost use Rattle.std.specs.declared.option.Option.TheVariants.{Some, None};
ghost use Rattle.g_graph.specs.Plain.{RegionTree, nodes_of, regions_of};
ghost use Rattle.g_graph.specs.Change.{lambda_changed, region_changed, node_changed, nodes_changed, regions_changed};

use crate::{Lambda, Node, Region};

/// A change of a region, where it can be changed so.
pub trait Change {
    ghost use Rattle.std.specs.declared.option.Option.{Option};
    ghost use Rattle.std.specs.declared.option.Option.TheVariants.{Some, None};

    /// What `make` answers where it fails.
    type Fault: Drop;

    ghost changed: { Self → RegionTree → Option RegionTree };

    /// Whether the region was changed. One that was not, or where the change failed, is as it was;
    /// where it was not changed, the change can still be made elsewhere.
    fn make(&mut self, region: &mut Region) -> Result<bool, Self::Fault>
        ensures ok { IfOk result (λ done.
            MatchBool done (changed self.old region.old ≡
            Some region.new) ((changed self.old region.old ≡ None) ×
            (region.new ≡ region.old) × (self.new ≡ self.old))) }
        ensures err { OnErr result (region.new ≡ region.old) };
}

/// Changes the first region, in pre-order, of this one and those nested in it that can be changed
/// so, and answers whether there was one. It takes time linear in the region, and the time of
/// `make`.
#[cycle(changes)]
pub fn change_region<C: Change>(region: &mut Region, change: &mut C) -> Result<bool, C::Fault>
    ensures ok { IfOk result (λ done.
        MatchBool done (region_changed (C.changed change.old) region.old ≡
        Some region.new) ((region_changed (C.changed change.old) region.old ≡ None) ×
        (region.new ≡ region.old) × (change.new ≡ change.old))) }
    ensures err { OnErr result (region.new ≡ region.old) }
{
    if change.make(region)? {
        return Ok(true);
    }
    change_nodes(&mut region.nodes, change)
}

#[cycle(changes)]
fn change_nodes<C: Change>(nodes: &mut Vec<Node>, change: &mut C) -> Result<bool, C::Fault>
    ensures ok { IfOk result (λ done.
        MatchBool done (nodes_changed (C.changed change.old) (nodes_of nodes.old.items) ≡
        Some (nodes_of nodes.new.items))
        ((nodes_changed (C.changed change.old) (nodes_of nodes.old.items) ≡ None) ×
        (nodes.new.items ≡ nodes.old.items) × (change.new ≡ change.old))) }
    ensures err { OnErr result (nodes.new.items ≡ nodes.old.items) }
{
    for i in 0..nodes.len() {
        if change_node(&mut nodes[i], change)? {
            return Ok(true);
        }
    }
    Ok(false)
}

#[cycle(changes)]
fn change_node<C: Change>(node: &mut Node, change: &mut C) -> Result<bool, C::Fault>
    ensures ok { IfOk result (λ done.
        MatchBool done (node_changed (C.changed change.old) node.old ≡
        Some node.new) ((node_changed (C.changed change.old) node.old ≡ None) ×
        (node.new ≡ node.old) × (change.new ≡ change.old))) }
    ensures err { OnErr result (node.new ≡ node.old) }
{
    change_regions(&mut node.regions, change)
}

#[cycle(changes)]
fn change_regions<C: Change>(regions: &mut Vec<Region>, change: &mut C) -> Result<bool, C::Fault>
    ensures ok { IfOk result (λ done.
        MatchBool done (regions_changed (C.changed change.old) (regions_of regions.old.items) ≡
        Some (regions_of regions.new.items))
        ((regions_changed (C.changed change.old) (regions_of regions.old.items) ≡ None) ×
        (regions.new.items ≡ regions.old.items) × (change.new ≡ change.old))) }
    ensures err { OnErr result (regions.new.items ≡ regions.old.items) }
{
    for i in 0..regions.len() {
        if change_region(&mut regions[i], change)? {
            return Ok(true);
        }
    }
    Ok(false)
}

/// Changes the first region, in pre-order, of the lambda's body and those nested in it that can be
/// changed so, and answers whether there was one.
pub fn change_lambda<C: Change>(lambda: &mut Lambda, change: &mut C) -> Result<bool, C::Fault>
    ensures ok { OnOk result (lambda.new ≡ lambda_changed (C.changed change.old) lambda.old) }
    ensures done { IfOk result (λ done. done ≡
        is_some (region_changed (C.changed change.old) lambda.old.body)) }
    ensures err { OnErr result (lambda.new ≡ lambda.old) }
{
    change_region(&mut lambda.body, change)
}
