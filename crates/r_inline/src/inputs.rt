//! The call that is inlined.

ghost use Rattle.std.specs.Prelude.{◌≡◌, option_copied};
ghost use Rattle.r_inline.specs.Rule.{calls, inputs_of_call, call_at};

use g_graph::{Lambda, Node, Op, Origin, Region, node_at};

/// The inputs of the node of this number, where the region itself holds a call of the callee there
/// that has an input for each parameter and both states.
pub fn call_at<'a>(region: &'a Region, id: u32, callee: &Lambda) -> Option<&'a [Origin]>
    ensures { option_copied result ≡ call_at id callee.now region.now }
{
    match node_at(&region.nodes, id) {
        Some(node) => inputs_of_call(node, callee),
        None => None,
    }
}

fn inputs_of_call<'a>(node: &'a Node, callee: &Lambda) -> Option<&'a [Origin]>
    ensures { option_copied result ≡ inputs_of_call callee.now node.now }
{
    if calls(node.op, node.inputs.as_slice(), callee) {
        Some(node.inputs.as_slice())
    } else {
        None
    }
}

/// Whether a node with this op and these inputs is a call of the callee that has an input for each
/// parameter and both states.
pub fn calls(op: Op, inputs: &[Origin], callee: &Lambda) -> bool
    ensures { result ≡ calls callee.now op inputs.now }
{
    match op {
        Op::Apply(function) => {
            function == callee.number && inputs.len() as u64 == u64::from(callee.params) + 2
        }
        _ => false,
    }
}
