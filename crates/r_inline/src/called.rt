//! The function that a node calls.

ghost use Rattle.std.specs.Prelude.{◌≡◌};
ghost use Rattle.r_inline.specs.Called.{called_by, region_calls, node_calls, called_at};

use g_graph::{Lambda, Node, Op, Region};

/// The number of the function that the node of this number calls, at any depth; none where there is
/// no such node, or it is no call. It takes no memory, and time linear in the lambda.
pub fn called_at(lambda: &Lambda, node: u32) -> Option<u32>
    ensures { result ≡ called_at node lambda.now }
{
    region_calls(&lambda.body, node)
}

#[cycle(calls)]
fn region_calls(region: &Region, id: u32) -> Option<u32>
    ensures { result ≡ region_calls id region.now }
{
    for node in &region.nodes {
        if let Some(function) = node_calls(node, id) {
            return Some(function);
        }
    }
    None
}

#[cycle(calls)]
fn node_calls(node: &Node, id: u32) -> Option<u32>
    ensures { result ≡ node_calls id node.now }
{
    if node.id == id {
        return called_by(node.op);
    }
    for region in &node.regions {
        if let Some(function) = region_calls(region, id) {
            return Some(function);
        }
    }
    None
}

/// The number of the function that a node with this op calls.
pub fn called_by(op: Op) -> Option<u32>
    ensures { result ≡ called_by op }
{
    match op {
        Op::Apply(function) => Some(function),
        _ => None,
    }
}
