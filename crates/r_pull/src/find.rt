//! The node that may move, and the Gamma that uses it.

ghost use Rattle.std.specs.Prelude.{◌≡◌, IfSome, if◌then◌else◌, option_copied, option_map, option_and_then};
ghost use Rattle.std.specs.declared.option.Option.TheVariants.{Some, None};
ghost use Rattle.g_graph.specs.Plain.{nodes_of, nodes_in};
ghost use Rattle.r_edit.specs.Uses.{nodes_read, is_output_of};
ghost use Rattle.r_pull.specs.Rule.{node_uses, only_user, pull_of, where_fits, pull_at};
ghost use Rattle.r_pull.specs.Edit.{takes, where_takes, user_of, entries_of, pull_into, pull_seen, IsCounted};

use crate::count::{copies, fits};
use g_graph::{Node, Op, Origin, Region, is_pure, node_at};
use r_edit::{is_output_of, nodes_read, some_output_of};

/// A node that may move, the Gamma that it moves into, and the number of copies that then stand in
/// the Gamma's regions.
#[derive(Drop)]
pub struct Found<'a> {
    pub node: &'a Node,
    pub user: &'a Node,
    pub copies: u32,
}

/// The node of this number in the region itself, where it may move into a Gamma, in a lambda of so
/// many values and with that next number. It takes no memory, and time linear in the inputs and
/// results of the region and in what the Gamma's regions themselves hold.
pub fn found_at(region: &Region, values: u64, next: u32, id: u32) -> Option<Found<'_>>
    ensures pull { option_map pull_seen result ≡ pull_at values next id region.now }
    ensures counted { IfSome result (λ f. IsCounted next id f.copies (pull_seen f)) }
    ensures user { IfSome result (λ f. only_user id (nodes_in region.now) ≡ Some f.user.now) }
{
    match node_at(&region.nodes, id) {
        Some(node) => found_from(region, node, values, next, id),
        None => None,
    }
}

#[tactic(auto, using(crate::proofs::Found::pull_seen_of, crate::proofs::Found::user_is_only))]
fn found_from<'a>(
    region: &'a Region,
    node: &'a Node,
    values: u64,
    next: u32,
    id: u32,
) -> Option<Found<'a>>
    ensures pull { option_map pull_seen result ≡
        option_and_then (where_fits values next id) (pull_of id region.now node.now) }
    ensures counted { IfSome result (λ f. IsCounted next id f.copies (pull_seen f)) }
    ensures user { IfSome result (λ f. only_user id (nodes_in region.now) ≡ Some f.user.now) }
{
    match user_of(region, node, id) {
        Some(user) => found_into(node, user, values, next, id),
        None => None,
    }
}

/// The node and the Gamma, where the node may move into it.
#[tactic(auto, using(crate::proofs::Found::fits_suffices))]
pub fn found_into<'a>(
    node: &'a Node,
    user: &'a Node,
    values: u64,
    next: u32,
    id: u32,
) -> Option<Found<'a>>
    ensures pull { option_map pull_seen result ≡
        where_fits values next id (pull_into node.now user.now) }
    ensures counted { IfSome result (λ f. IsCounted next id f.copies (pull_seen f)) }
    ensures user { IfSome result (λ f. f.user.now ≡ user.now) }
{
    let copies = copies(&user.regions, entries_of(user), id);
    if !fits(node, user, copies, values, next, id) {
        return None;
    }
    Some(Found {
        node,
        user,
        copies: copies as u32,
    })
}

/// The entries of a Gamma: its inputs after the predicate.
pub fn entries_of(user: &Node) -> &[Origin]
    ensures { result.now ≡ entries_of user.now }
{
    let inputs = user.inputs.as_slice();
    match inputs.split_first() {
        Some((_, entries)) => entries,
        None => inputs,
    }
}

// The Gamma that the node of the region moves into.
#[tactic(auto, using(crate::proofs::Found::has_none_of))]
fn user_of<'a>(region: &'a Region, node: &Node, id: u32) -> Option<&'a Node>
    ensures { option_copied result ≡ user_of id region.now node.now }
{
    if is_pure(node.op) && node.regions.is_empty() && !some_output_of(&region.results, id) {
        taking_user(&region.nodes, id)
    } else {
        None
    }
}

fn taking_user(nodes: &[Node], id: u32) -> Option<&Node>
    ensures { option_copied result ≡
        option_and_then (where_takes id) (only_user id (nodes_of nodes.now)) }
{
    match only_user(nodes, id) {
        Some(user) => if takes(user, id) { Some(user) } else { None },
        None => None,
    }
}

// A Gamma whose predicate is no output of the node.
fn takes(user: &Node, id: u32) -> bool
    ensures { result ≡ takes id user.now }
{
    match user.op {
        Op::Gamma => match user.inputs.first() {
            Some(predicate) => !is_output_of(*predicate, id),
            None => false,
        },
        _ => false,
    }
}

fn only_user(nodes: &[Node], id: u32) -> Option<&Node>
    ensures { option_copied result ≡ only_user id (nodes_of nodes.now) }
{
    for (i, node) in nodes.iter().enumerate() {
        if uses(node, id) {
            return where_last(node, &nodes[i + 1..], id);
        }
    }
    None
}

// The node, where none of these reads an output of node `id`.
fn where_last<'a>(node: &'a Node, others: &[Node], id: u32) -> Option<&'a Node>
    ensures { option_copied result ≡
        (if nodes_read (is_output_of id) (nodes_of others.now) then None else Some node.now) }
{
    if nodes_read(others, id) {
        None
    } else {
        Some(node)
    }
}

/// Whether an input of the node is an output of node `id`.
pub fn uses(node: &Node, id: u32) -> bool
    ensures { result ≡ node_uses id node.now }
{
    some_output_of(node.inputs.as_slice(), id)
}
