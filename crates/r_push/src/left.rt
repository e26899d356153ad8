//! The node that may leave, and where its arguments come from.

ghost use Rattle.std.specs.Prelude.{◌≡◌, option_copied};
ghost use Rattle.g_graph.specs.Plain.{regions_of};
ghost use Rattle.r_push.specs.Edit.{left, left_only, outer};
ghost use Rattle.r_push.specs.Rule.{names_argument, leaving, leaving_one, leaving_loop};

use crate::find::{may_leave, may_leave_loop};
use g_graph::{Node, Op, Origin, Region, node_at};

/// The node of this number in a region of this node, where it may leave this node.
pub fn left(node: &Node, id: u32) -> Option<&Node>
    ensures { option_copied result ≡ left id node.now }
{
    match node.op {
        Op::Gamma => {
            if node.inputs.is_empty() {
                None
            } else {
                leaving_one(&node.regions, id)
            }
        }
        Op::Theta => left_only(&node.regions, id),
        _ => None,
    }
}

/// Where the arguments of the regions of this node come from.
pub fn outer(node: &Node) -> &[Origin]
    ensures { result.now ≡ outer node.now }
{
    let inputs = node.inputs.as_slice();
    match node.op {
        Op::Gamma => match inputs.split_first() {
            Some((_, entries)) => entries,
            None => inputs,
        },
        _ => inputs,
    }
}

fn leaving_one(regions: &[Region], id: u32) -> Option<&Node>
    ensures { option_copied result ≡ leaving_one id (regions_of regions.now) }
{
    for region in regions {
        if let Some(node) = leaving(region, id) {
            return Some(node);
        }
    }
    None
}

fn leaving(region: &Region, id: u32) -> Option<&Node>
    ensures { option_copied result ≡ leaving names_argument id region.now }
{
    match node_at(&region.nodes, id) {
        Some(node) => if may_leave(region, node) {
            Some(node)
        } else {
            None
        },
        None => None,
    }
}

#[tactic(auto, using(crate::proofs::Counted::left_only_none))]
fn left_only(regions: &[Region], id: u32) -> Option<&Node>
    ensures { option_copied result ≡ left_only id (regions_of regions.now) }
{
    if regions.len() != 1 {
        return None;
    }
    leaving_loop(&regions[0], id)
}

fn leaving_loop(region: &Region, id: u32) -> Option<&Node>
    ensures { option_copied result ≡ leaving_loop id region.now }
{
    match node_at(&region.nodes, id) {
        Some(node) => if may_leave_loop(region, node) {
            Some(node)
        } else {
            None
        },
        None => None,
    }
}
