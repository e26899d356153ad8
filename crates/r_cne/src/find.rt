//! The earlier node that gives the same.

ghost use Rattle.std.specs.Prelude.{◌≡◌, option_and_then};
ghost use Rattle.g_graph.specs.Plain.{nodes_of};
ghost use Rattle.g_graph.specs.Nodes.{node_at};
ghost use Rattle.r_cne.specs.Rule.{is_common, other_than, earlier};

use g_graph::{Node, Op, node_at};
use r_edit::first_of;

/// The number of the first of these nodes that gives the same as the one of this number, where it
/// is another one.
pub fn earlier(nodes: &[Node], id: u32) -> Option<u32>
    ensures { result ≡ option_and_then (earlier (nodes_of nodes.now))
        (node_at id (nodes_of nodes.now)) }
{
    match node_at(nodes, id) {
        Some(node) => earlier_than(nodes, node),
        None => None,
    }
}

fn earlier_than(nodes: &[Node], node: &Node) -> Option<u32>
    ensures { result ≡ earlier (nodes_of nodes.now) node.now }
{
    if !is_common(node.op) {
        return None;
    }
    other_than(node.id, first_of(nodes, node.op, node.inputs.as_slice()))
}

fn other_than(id: u32, found: Option<u32>) -> Option<u32>
    ensures { result ≡ other_than id found }
{
    match found {
        Some(other) => { if other == id { None } else { Some(other) } }
        None => None,
    }
}

fn is_common(op: Op) -> bool
    ensures { result ≡ is_common op }
{
    match op {
        Op::Const(_)
        | Op::Local(_)
        | Op::Delta(_)
        | Op::Bin(_)
        | Op::Un(_)
        | Op::Load(_)
        | Op::PtrEq => true,
        _ => false,
    }
}
