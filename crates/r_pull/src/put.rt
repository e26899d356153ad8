//! A node that is written, or moves into one that is.

ghost use Rattle.std.specs.Prelude.{◌≡◌, ◌∷◌, ◌++◌, [], ℕ, List, None, true, OnOk, IfSome, length};
ghost use Rattle.g_graph.specs.declared.op.Origin.{Origin};
ghost use Rattle.r_rule.specs.declared.steps.Rule.TheVariants.{Pull};
ghost use Rattle.g_graph.specs.Plain.{id_of, inputs_in};
ghost use Rattle.r_pull.specs.Walk.{put_where};
ghost use Rattle.r_pull.specs.declared.users.User.TheVariants.{Entries};
ghost use Rattle.r_pull.specs.Behind.{behind, can_leave, IsWritten};
ghost use Rattle.r_pull.specs.Users.{both_use, node_user, user_in, AreUsers, carried_with, user_after};
ghost use Rattle.r_walk.specs.Asks.{walking};
ghost use Rattle.r_walk.specs.Walks.{HasGained};
ghost use Rattle.r_walk.specs.Walk.{stepped};

use crate::counts::Counts;
use crate::users::{User, Users};
use crate::{Moved, pull_into};
use base::NoMemory;
use g_graph::{Node, is_pure};
use r_rule::{Rule, Step};
use std::alloc::Global;

/// The node moves into one that is written, where it may, or is written.
pub fn put(
    alloc: Global,
    node: Node,
    users: &mut Users,
    counts: &mut Counts,
    log: &mut Vec<Step>,
    written: &mut Vec<Node>,
) -> Result<(), NoMemory>
    ensures ok { OnOk result ((results : List Origin) → AreUsers users.old results written.old.items →
        IsWritten results (put_where node results (behind written.old.items
        (walking counts.old.values counts.old.next log.old.items)))
        written.new.items users.new (walking counts.new.values counts.new.next log.new.items)) }
    ensures gained { HasGained log.old.items log.new.items }
{
    match gamma_of(&node, users) {
        Some(place) => put_into(alloc, node, place, users, counts, log, written),
        None => write(node, users, written),
    }
}

// The place of the one Gamma that uses the node, by entries alone, where the node may leave.
fn gamma_of(node: &Node, users: &Users) -> Option<usize>
    ensures user { IfSome result (λ place. user_in users.now (id_of node.now) ≡ Entries place) }
    ensures leaves { IfSome result (λ _. can_leave node.now ≡ true) }
    ensures none { result ≡ None → (place : ℕ) →
        user_in users.now (id_of node.now) ≡ Entries place → can_leave node.now ≡ true → ⊥ }
{
    if !can_leave(node) {
        return None;
    }
    match users.user_of(node.id) {
        User::Entries(place) => Some(place),
        _ => None,
    }
}

#[tactic(auto, using(crate::proofs::Found::has_none_of))]
fn can_leave(node: &Node) -> bool
    ensures { result ≡ can_leave node.now }
{
    is_pure(node.op) && node.regions.is_empty()
}

// The node moves into the Gamma of this place, where it may, or is written.
fn put_into(
    alloc: Global,
    node: Node,
    place: usize,
    users: &mut Users,
    counts: &mut Counts,
    log: &mut Vec<Step>,
    written: &mut Vec<Node>,
) -> Result<(), NoMemory>
    requires user { user_in users.old (id_of node) ≡ Entries place }
    requires leaves { can_leave node ≡ true }
    ensures ok { OnOk result ((results : List Origin) → AreUsers users.old results written.old.items →
        IsWritten results (put_where node results (behind written.old.items
        (walking counts.old.values counts.old.next log.old.items)))
        written.new.items users.new (walking counts.new.values counts.new.next log.new.items)) }
    ensures gained { HasGained log.old.items log.new.items }
{
    if place >= written.len() {
        return Ok(());
    }
    match pull_into(
        alloc,
        &mut written[place],
        &node,
        counts.values,
        counts.next,
    )? {
        Some(moved) => step(&node, place, &moved, users, counts, log),
        None => write(node, users, written),
    }
}

// A step: the node moved into the Gamma of this place.
fn step(
    node: &Node,
    place: usize,
    moved: &Moved,
    users: &mut Users,
    counts: &mut Counts,
    log: &mut Vec<Step>,
) -> Result<(), NoMemory>
    ensures users { OnOk result ((n : ℕ) → user_in users.new n ≡ user_after (id_of node.now) place
        (carried_with moved.now.copies (inputs_in node.now)) n (user_in users.old n)) }
    ensures now { OnOk result (walking counts.new.values counts.new.next log.new.items ≡
        stepped Pull (id_of node.now) moved.now.gone moved.now.added moved.now.copies
        (walking counts.old.values counts.old.next log.old.items)) }
    ensures gained { HasGained log.old.items log.new.items }
{
    counts.step(moved)?;
    log.push(Step {
        rule: Rule::Pull,
        node: node.id,
    })?;
    users.note_move(node, place, moved.copies)
}

// The node is written.
fn write(node: Node, users: &mut Users, written: &mut Vec<Node>) -> Result<(), NoMemory>
    ensures nodes { OnOk result (written.new.items ≡ written.old.items ++ node ∷ []) }
    ensures users { OnOk result ((n : ℕ) → user_in users.new n ≡
        both_use (user_in users.old n) (node_user n (length written.old.items) node)) }
{
    users.note_node(&node, written.len())?;
    written.push(node)?;
    Ok(())
}
