//! Whether a node may leave a Gamma or a Theta.

ghost use Rattle.std.specs.Prelude.{◌≡◌, ◌<◌, ◌^◌, is_some};
ghost use Rattle.g_graph.specs.declared.op.Origin.TheVariants.{Out};
ghost use Rattle.r_push.specs.Rule.{leaves_only};
ghost use Rattle.g_graph.specs.Plain.{nodes_of, regions_of, results_of, has_none};
ghost use Rattle.g_graph.specs.WellFormed.{all_of};
ghost use Rattle.r_push.specs.Rule.{names_argument, may_leave, leaving, leaving_one, is_invariant, leaving_loop, pushed, growth, can_count, pushed_within, nodes_pushed, push_here};

use g_graph::{Node, Op, Origin, Region, is_pure, is_used, node_at, same_origin};
use r_edit::may_change_size;

/// Whether the node of this number may leave a Gamma or a Theta of the region, in a lambda of so
/// many values.
pub fn can_push(region: &Region, values: u64, id: u32) -> bool
    ensures { result ≡ is_some (push_here values id region.now) }
{
    nodes_can_push(&region.nodes, values, id)
}

fn nodes_can_push(nodes: &[Node], values: u64, id: u32) -> bool
    ensures { result ≡ is_some (nodes_pushed values id (nodes_of nodes.now)) }
{
    for node in nodes {
        if can_leave(node, values, id) {
            return true;
        }
    }
    false
}

/// Whether the node of this number may leave this one, in a lambda of so many values.
pub fn can_leave(node: &Node, values: u64, id: u32) -> bool
    ensures { result ≡ is_some (pushed_within values id node.now) }
{
    may_change_size(values, growth(node), 0) && can_count(node) && can_move(node, id)
}

#[tactic(auto, using(g_graph::proofs::lemmas::Listed::count_is))]
fn growth(node: &Node) -> u128
    ensures value { result ≡ growth node.now }
    ensures small { result < 2 ^ 127 }
{
    if node.op == Op::Theta {
        3
    } else {
        u128::from(node.regions.len() as u64)
    }
}

fn can_count(node: &Node) -> bool
    ensures { result ≡ can_count node.now }
{
    for region in &node.regions {
        if region.args.len() > u32::MAX as usize {
            return false;
        }
    }
    true
}

fn can_move(node: &Node, id: u32) -> bool
    ensures { result ≡ is_some (pushed id node.now) }
{
    match node.op {
        Op::Gamma => !node.inputs.is_empty() && one_leaves(&node.regions, id),
        Op::Theta => only_leaves(&node.regions, id),
        _ => false,
    }
}

#[tactic(auto, using(crate::proofs::Counted::only_none))]
fn only_leaves(regions: &[Region], id: u32) -> bool
    ensures { result ≡ leaves_only id (regions_of regions.now) }
{
    if regions.len() != 1 {
        return false;
    }
    loop_leaves(&regions[0], id)
}

fn one_leaves(regions: &[Region], id: u32) -> bool
    ensures { result ≡ is_some (leaving_one id (regions_of regions.now)) }
{
    for region in regions {
        if leaves(region, id) {
            return true;
        }
    }
    false
}

fn leaves(region: &Region, id: u32) -> bool
    ensures { result ≡ is_some (leaving names_argument id region.now) }
{
    match node_at(&region.nodes, id) {
        Some(node) => may_leave(region, node),
        None => false,
    }
}

/// Whether the node may leave this region of a Gamma.
pub fn may_leave(region: &Region, node: &Node) -> bool
    ensures { result ≡ may_leave names_argument region.now node.now }
{
    is_pure(node.op)
        && has_none(&node.regions)
        && all_arguments(node.inputs.as_slice())
        && is_used(region, first_output(node.id))
}

fn has_none(regions: &[Region]) -> bool
    ensures { result ≡ has_none (regions_of regions.now) }
{
    match regions.first() {
        Some(_) => false,
        None => true,
    }
}

fn all_arguments(origins: &[Origin]) -> bool
    ensures { result ≡ all_of names_argument origins.now }
{
    for origin in origins {
        if !names_argument(*origin) {
            return false;
        }
    }
    true
}

fn names_argument(origin: Origin) -> bool
    ensures { result ≡ names_argument origin }
{
    match origin {
        Origin::Arg(_) => true,
        Origin::Out { .. } => false,
    }
}

fn loop_leaves(region: &Region, id: u32) -> bool
    ensures { result ≡ is_some (leaving_loop id region.now) }
{
    match node_at(&region.nodes, id) {
        Some(node) => may_leave_loop(region, node),
        None => false,
    }
}

/// Whether the node may leave this region of a Theta.
pub fn may_leave_loop(region: &Region, node: &Node) -> bool
    ensures { result ≡ may_leave (is_invariant (results_of region.now)) region.now node.now }
{
    is_pure(node.op)
        && has_none(&node.regions)
        && all_invariant(node.inputs.as_slice(), &region.results)
        && is_used(region, first_output(node.id))
}

fn all_invariant(origins: &[Origin], results: &[Origin]) -> bool
    ensures { result ≡ all_of (is_invariant results.now) origins.now }
{
    for origin in origins {
        if !is_invariant(*origin, results) {
            return false;
        }
    }
    true
}

fn is_invariant(origin: Origin, results: &[Origin]) -> bool
    ensures { result ≡ is_invariant results.now origin }
{
    match origin {
        Origin::Arg(index) => match results.get(index as usize + 1) {
            Some(result) => same_origin(*result, origin),
            None => false,
        },
        Origin::Out { .. } => false,
    }
}

/// The output of a node that gives one value.
pub fn first_output(node: u32) -> Origin
    ensures { result ≡ Out node 0 }
{
    Origin::Out { node, port: 0 }
}
