//! The first node of an op and inputs, and whether ops and origins are the same.

ghost use Rattle.std.specs.Prelude.{◌≡◌};
ghost use Rattle.g_graph.specs.Plain.{nodes_of};
ghost use Rattle.g_graph.specs.Views.{same_op};
ghost use Rattle.r_edit.specs.Lookup.{same_origins, is_node_of, first_of};

use g_graph::{Node, Op, Origin, same_origin};

/// The number of the first of these nodes that has this op and these inputs. It looks at none of
/// their regions. It takes no memory, and time linear in the nodes and their inputs.
pub fn first_of(nodes: &[Node], op: Op, inputs: &[Origin]) -> Option<u32>
    ensures { result ≡ first_of op inputs.now (nodes_of nodes.now) }
{
    for node in nodes {
        if is_node_of(node, op, inputs) {
            return Some(node.id);
        }
    }
    None
}

fn is_node_of(node: &Node, op: Op, inputs: &[Origin]) -> bool
    ensures { result ≡ is_node_of op inputs.now node.now }
{
    same_op(op, node.op) && same_origins(inputs, node.inputs.as_slice())
}

/// Whether two ops are the same, with the word, number or width that is in them.
pub fn same_op(a: Op, b: Op) -> bool
    ensures { result ≡ same_op a b }
{
    if a != b {
        return false;
    }
    true
}

/// Whether two lists of origins are the same.
pub fn same_origins(a: &[Origin], b: &[Origin]) -> bool
    ensures { result ≡ same_origins a.now b.now }
{
    if a.len() != b.len() {
        return false;
    }
    for (i, origin) in a.iter().enumerate() {
        if !same_origin(*origin, b[i]) {
            return false;
        }
    }
    true
}
