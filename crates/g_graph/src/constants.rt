//! The words of constants, and of origins that are constants.

ghost use Rattle.std.specs.Prelude.{◌≡◌, option_and_then};
ghost use Rattle.g_graph.specs.Plain.{nodes_of};
ghost use Rattle.g_graph.specs.Nodes.{node_at, op_word, const_word, constant};

use crate::find::node_at;
use crate::{Node, Op, Origin};

/// The word that an origin is, where a Const of these nodes gives it.
pub fn constant(nodes: &[Node], origin: Origin) -> Option<u32>
    ensures { result ≡ constant (nodes_of nodes.now) origin }
{
    match origin {
        Origin::Arg(_) => None,
        Origin::Out { node, port } => {
            if port == 0 {
                word_at(nodes, node)
            } else {
                None
            }
        }
    }
}

fn word_at(nodes: &[Node], id: u32) -> Option<u32>
    ensures { result ≡ option_and_then const_word (node_at id (nodes_of nodes.now)) }
{
    match node_at(nodes, id) {
        Some(node) => const_word(node),
        None => None,
    }
}

/// The word of a Const.
pub fn const_word(node: &Node) -> Option<u32>
    ensures { result ≡ const_word node.now }
{
    op_word(node.op)
}

fn op_word(op: Op) -> Option<u32>
    ensures { result ≡ op_word op }
{
    match op {
        Op::Const(word) => Some(word),
        _ => None,
    }
}
