//! The edit of a node: it goes, with all that is in it.

ghost use Rattle.std.specs.Prelude.{◌≡◌};
ghost use Rattle.g_graph.specs.Plain.{nodes_of};
ghost use Rattle.r_edit.specs.Removal.{nodes_without, region_without};

use g_graph::{Node, Region, node_index};

/// The region's first node of this number goes, with all that is in it. Where there is none nothing
/// changes. It takes no memory, and time linear in the nodes of the region and in what is in that
/// node.
pub fn remove_node(region: &mut Region, id: u32)
    ensures { region.new ≡ region_without id region.old }
{
    remove_from(&mut region.nodes, id);
}

fn remove_from(nodes: &mut Vec<Node>, id: u32)
    ensures { nodes_of nodes.new.items ≡ nodes_without id (nodes_of nodes.old.items) }
{
    match node_index(nodes, id) {
        Some(index) => drop(nodes.remove(index)),
        None => (),
    }
}
