//! The move of a node out of a Gamma or a Theta of a region.

ghost use Rattle.std.specs.Prelude.{◌≡◌, ◌++◌, [], ◌∷◌, MatchBool, IfOk, OnOk, OnErr, IsTrue, is_some, option_map};
ghost use Rattle.std.specs.declared.option.Option.TheVariants.{Some, None};
ghost use Rattle.g_graph.specs.declared.op.Origin.TheVariants.{Out};
ghost use Rattle.g_graph.specs.Plain.{nodes_of, regions_of, regions_in, inputs_in};
ghost use Rattle.g_graph.specs.Replace.{node_redirected};
ghost use Rattle.g_graph.specs.Splice.{args_to_inputs};
ghost use Rattle.r_push.specs.Edit.{left, outer, push_index, widened_by, is_loop, all_longer};
ghost use Rattle.r_push.specs.Rule.{can_count, nodes_pushed, push_here};

use crate::carry::carry_all;
use crate::find::{can_leave, first_output};
use crate::grow::{longer_lists, more_inputs, outside};
use crate::left::{left, outer};
use base::NoMemory;
use g_graph::{Node, Op, Origin, Region};
use smallvec::SmallVec;
use std::alloc::Global;

/// Moves the node of this number out of the first Gamma or Theta of the region that it may leave,
/// in a lambda of so many values, and answers whether there was one.
pub fn push(alloc: Global, region: &mut Region, values: u64, id: u32) -> Result<bool, NoMemory>
    ensures ok { IfOk result (λ done.
        MatchBool done (push_here values id region.old ≡ Some region.new)
        ((push_here values id region.old ≡ None) × (region.new ≡ region.old))) }
    ensures err { OnErr result (region.new ≡ region.old) }
{
    push_nodes(alloc, &mut region.nodes, values, id)
}

fn push_nodes(alloc: Global, nodes: &mut Vec<Node>, values: u64, id: u32) -> Result<bool, NoMemory>
    ensures ok { IfOk result (λ done.
        MatchBool done (nodes_pushed values id (nodes_of nodes.old.items) ≡
        Some (nodes_of nodes.new.items))
        ((nodes_pushed values id (nodes_of nodes.old.items) ≡ None) ×
        (nodes.new.items ≡ nodes.old.items))) }
    ensures err { OnErr result (nodes.new.items ≡ nodes.old.items) }
{
    match push_index(nodes, values, id) {
        Some(index) => {
            push_at(alloc, nodes, index, values, id)?;
            Ok(true)
        }
        None => Ok(false),
    }
}

fn push_index(nodes: &[Node], values: u64, id: u32) -> Option<usize>
    ensures { result ≡ push_index values id 0 (nodes_of nodes.now) }
{
    for (i, node) in nodes.iter().enumerate() {
        if can_leave(node, values, id) {
            return Some(i);
        }
    }
    None
}

// All new lists are made before the nodes change.
fn push_at(
    alloc: Global,
    nodes: &mut Vec<Node>,
    index: usize,
    values: u64,
    id: u32,
) -> Result<(), NoMemory>
    requires { push_index values id 0 (nodes_of nodes.old.items) ≡ Some index }
    ensures ok { OnOk result (nodes_pushed values id (nodes_of nodes.old.items) ≡
        Some (nodes_of nodes.new.items)) }
    ensures err { OnErr result (nodes.new.items ≡ nodes.old.items) }
{
    let node = &nodes[index];
    let mut lists = node_lists(alloc, node)?;
    let inputs = node_inputs(alloc, node, id)?;
    let moved = moved_node(alloc, node, id)?;
    nodes.insert(index, moved)?;
    widen(alloc, &mut nodes[index + 1], &mut lists, inputs, id);
    Ok(())
}

fn node_lists(alloc: Global, node: &Node) -> Result<Vec<Region>, NoMemory>
    requires { IsTrue (can_count node.now) }
    ensures { IfOk result (λ lists. regions_of lists.items ≡ all_longer (is_loop node.now)
        (regions_in node.now)) }
{
    longer_lists(alloc, &node.regions, node.op == Op::Theta)
}

fn node_inputs(alloc: Global, node: &Node, id: u32) -> Result<SmallVec<Origin, 4>, NoMemory>
    ensures { IfOk result (λ more. more.items ≡ inputs_in node.now ++ Out id 0 ∷ []) }
{
    more_inputs(alloc, node.inputs.as_slice(), first_output(id))
}

#[tactic(auto, using(crate::proofs::Indexed::left_none))]
fn moved_node(alloc: Global, node: &Node, id: u32) -> Result<Node, NoMemory>
    requires { IsTrue (is_some (left id node.now)) }
    ensures { IfOk result (λ moved. option_map (node_redirected (args_to_inputs (outer node.now)))
        (left id node.now) ≡ Some moved) }
{
    match left(node, id) {
        Some(inner) => Ok(outside(alloc, inner, outer(node))?),
        None => unreachable!(),
    }
}

fn widen(
    alloc: Global,
    node: &mut Node,
    lists: &mut Vec<Region>,
    inputs: SmallVec<Origin, 4>,
    id: u32,
)
    requires count { IsTrue (can_count node.old) }
    requires lists { regions_of lists.old.items ≡
        all_longer (is_loop node.old) (regions_in node.old) }
    ensures { node.new ≡ widened_by id inputs.items node.old }
{
    node.inputs = inputs;
    carry_all(alloc, &mut node.regions, lists, node.op == Op::Theta, id);
}
