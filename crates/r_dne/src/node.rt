//! Whether a node is dead.

ghost use Rattle.std.specs.Prelude.{◌≡◌, length};
ghost use Rattle.g_graph.specs.Signatures.{output_kinds};
ghost use Rattle.g_graph.specs.Scope.{is_of};
ghost use Rattle.g_graph.specs.WellFormed.{some_of};
ghost use Rattle.r_dne.specs.Rule.{gives_state, is_dead};

use g_graph::{Kind, Node, Op, Region, first_args, is_of, op_outputs, output_kind};
use r_edit::reads_node;

/// Whether the node gives no state, and nothing uses an output of it.
pub fn is_dead(region: &Region, node: &Node) -> bool
    ensures { result ≡ is_dead region.now node.now }
{
    !(gives_state(node) || reads_node(region, node.id))
}

fn gives_state(node: &Node) -> bool
    ensures { result ≡ gives_state node.now }
{
    has_output(node, Kind::Memory) || has_output(node, Kind::Io)
}

#[tactic(auto, using(crate::proofs::Tests::output_more))]
fn has_output(node: &Node, kind: Kind) -> bool
    ensures { result ≡ some_of (is_of kind) (output_kinds node.now) }
{
    for port in 0..output_count(node) {
        if is_of(kind, output_kind(node, port)) {
            return true;
        }
    }
    false
}

/// How many outputs the node has.
pub fn output_count(node: &Node) -> usize
    ensures { result ≡ length (output_kinds node.now) }
{
    match node.op {
        Op::Gamma => match node.regions.first() {
            Some(region) => region.results.len(),
            None => 0,
        },
        Op::Theta => first_args(&node.regions).len(),
        op => op_outputs(op).len(),
    }
}
