//! The move of a node into one Gamma.

ghost use Rattle.std.specs.Prelude.{◌≡◌, IfOk, OnOk, option_map};
ghost use Rattle.g_graph.specs.Plain.{id_of};
ghost use Rattle.r_pull.specs.Rule.{where_fits};
ghost use Rattle.r_pull.specs.declared.into.Planned.{Planned};
ghost use Rattle.r_pull.specs.Edit.{pull_into, moved_of, gamma_after, IsPlannedFor};

use crate::count::change_of;
use crate::fill::take;
use crate::find::found_into;
use crate::plan::{Plan, plan_for};
use base::NoMemory;
use g_graph::Node;
use std::alloc::Global;

/// What a move made: so many copies; and so many values came, and went.
#[derive(Drop)]
pub struct Moved {
    pub copies: u32,
    pub added: u128,
    pub gone: u128,
}

/// A move that is planned.
#[derive(Drop)]
pub struct Planned {
    pub plan: Plan,
    pub moved: Moved,
}

/// The node moves into the Gamma `user`, where it may, in a lambda of so many values and with that
/// next number: for a node of which every use is an entry of that Gamma this is the rule, but for
/// the node, which the caller takes away. It takes time linear in what the Gamma's regions
/// themselves hold.
#[tactic(auto, using(crate::proofs::Moves::after_move, crate::proofs::Moves::after_none))]
pub fn pull_into(
    alloc: Global,
    user: &mut Node,
    node: &Node,
    values: u64,
    next: u32,
) -> Result<Option<Moved>, NoMemory>
    ensures moved { IfOk result (λ moved. moved ≡ option_map (moved_of (id_of node.now))
        (where_fits values next (id_of node.now) (pull_into node.now user.old))) }
    ensures user { OnOk result (user.new ≡ gamma_after next (id_of node.now)
        (where_fits values next (id_of node.now) (pull_into node.now user.old)) user.old) }
{
    match plan_into(alloc, user, node, values, next)? {
        Some(planned) => {
            let Planned { plan, moved } = planned;
            take(alloc, user, plan);
            Ok(Some(moved))
        }
        None => Ok(None),
    }
}

#[tactic(auto, using(crate::proofs::Moves::counted_here, crate::proofs::Moves::moves_here))]
fn plan_into(
    alloc: Global,
    user: &Node,
    node: &Node,
    values: u64,
    next: u32,
) -> Result<Option<Planned>, NoMemory>
    ensures moved { IfOk result (λ planned. option_map (λ (p : Planned). p.moved) planned ≡
        option_map (moved_of (id_of node.now)) (where_fits values next (id_of node.now) (pull_into node.now user.now))) }
    ensures plan { IfOk result (λ planned.
        IsPlannedFor next (id_of node.now) node.now user.now planned) }
{
    let id = node.id;
    match found_into(node, user, values, next, id) {
        Some(found) => {
            let copies = found.copies;
            let (added, gone) = change_of(node, user, u64::from(copies), id);
            let plan = plan_for(alloc, node, user, copies, next, id)?;
            Ok(Some(Planned {
                plan,
                moved: Moved {
                    copies,
                    added,
                    gone,
                },
            }))
        }
        None => Ok(None),
    }
}
