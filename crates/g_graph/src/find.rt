//! The nodes of a list by their numbers.

ghost use Rattle.std.specs.Prelude.{◌≡◌, option_copied};
ghost use Rattle.g_graph.specs.Plain.{nodes_of, nodes_in};
ghost use Rattle.g_graph.specs.Change.{has_node, node_index};
ghost use Rattle.g_graph.specs.Nodes.{node_at, node_set};

use crate::{Node, Region};

/// The index of the first of these nodes that has the number. It looks at none of their regions.
pub fn node_index(nodes: &[Node], id: u32) -> Option<usize>
    ensures { result ≡ node_index id 0 (nodes_of nodes.now) }
{
    for (i, node) in nodes.iter().enumerate() {
        if node.id == id {
            return Some(i);
        }
    }
    None
}

/// The first of these nodes that has the number. It looks at none of their regions.
pub fn node_at(nodes: &[Node], id: u32) -> Option<&Node>
    ensures { option_copied result ≡ node_at id (nodes_of nodes.now) }
{
    for node in nodes {
        if node.id == id {
            return Some(node);
        }
    }
    None
}

/// Replaces the first of these nodes that has the number. Where there is none nothing changes.
pub fn set_node(nodes: &mut Vec<Node>, id: u32, node: Node)
    ensures { nodes_of nodes.new.items ≡ node_set id node (nodes_of nodes.old.items) }
{
    match node_index(nodes, id) {
        Some(index) => nodes[index] = node,
        None => (),
    }
}

/// Whether the region itself holds the node of this number.
pub fn holds_node(region: &Region, id: u32) -> bool
    ensures { result ≡ has_node id (nodes_in region.now) }
{
    has_node(&region.nodes, id)
}

#[tactic(auto, using(crate::proofs::lemmas::Change::has_node_index))]
fn has_node(nodes: &[Node], id: u32) -> bool
    ensures { result ≡ has_node id (nodes_of nodes.now) }
{
    node_index(nodes, id).is_some()
}
