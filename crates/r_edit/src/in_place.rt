//! Edits of nodes and regions, as they are made in place.

ghost use Rattle.std.specs.Prelude.{◌≡◌, map};
ghost use Rattle.g_graph.specs.Plain.{nodes_of};
ghost use Rattle.r_edit.specs.InPlace.{nodes_edited, redirected_after};

use g_graph::{Node, Redirect, Region, node_index, redirect_nodes};

/// An edit of one node.
pub trait NodeEdit {
    ghost use Rattle.g_graph.specs.Plain.{NodeTree};

    ghost node_edited: { Self → NodeTree → NodeTree };

    fn edit_node(&self, node: &mut Node)
        ensures { node.new ≡ node_edited self.now node.old };
}

/// An edit of one region.
pub trait RegionEdit {
    ghost use Rattle.g_graph.specs.Plain.{RegionTree};

    ghost region_edited: { Self → RegionTree → RegionTree };

    fn edit_region(&self, region: &mut Region)
        ensures { region.new ≡ region_edited self.now region.old };
}

/// Edits the first of these nodes that has the number. Where there is none nothing changes. It
/// takes time linear in the nodes, and the time of the edit.
pub fn edit_first<E: NodeEdit>(nodes: &mut Vec<Node>, id: u32, edit: &E)
    ensures { nodes_of nodes.new.items ≡
        nodes_edited id (E.node_edited edit.now) (nodes_of nodes.old.items) }
{
    match node_index(nodes, id) {
        Some(index) => edit.edit_node(&mut nodes[index]),
        None => (),
    }
}

/// Redirects each input of the nodes after the first one that has the number. Where there is none
/// nothing changes. It takes time linear in the nodes and their inputs.
pub fn redirect_after<R: Redirect>(nodes: &mut Vec<Node>, id: u32, by: &R)
    ensures { nodes_of nodes.new.items ≡
        redirected_after id (R.redirected by.now) (nodes_of nodes.old.items) }
{
    match node_index(nodes, id) {
        Some(index) => redirect_nodes(nodes, index + 1, by),
        None => (),
    }
}

/// Edits each of these regions.
pub fn edit_regions<E: RegionEdit>(regions: &mut Vec<Region>, edit: &E)
    ensures { regions.new.items ≡ map (E.region_edited edit.now) regions.old.items }
{
    for i in 0..regions.len() {
        edit.edit_region(&mut regions[i]);
    }
}
