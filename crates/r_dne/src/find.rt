//! What of a node may go, and the plan for it.

ghost use Rattle.std.specs.Prelude.{◌≡◌, IfOk, is_some};
ghost use Rattle.g_graph.specs.declared.op.Op.TheVariants.{Gamma, Theta};
ghost use Rattle.g_graph.specs.Plain.{id_of, op_of};
ghost use Rattle.r_dne.specs.Rule.{shrunk, eliminated, dne_here};
ghost use Rattle.r_dne.specs.Plan.{planned};

use crate::gamma::{Entries, Exits};
use crate::node::is_dead;
use crate::plan::Plan;
use crate::theta::Variables;
use base::NoMemory;
use g_graph::{Node, Op, Region, node_at};
use r_edit::{all_stay, are_all_true, list_of};
use std::alloc::Global;

/// Whether the region holds the node of this number, and some of it may go.
pub fn can_eliminate(region: &Region, id: u32) -> bool
    ensures { result ≡ is_some (dne_here id region.now) }
{
    match node_at(&region.nodes, id) {
        Some(node) => is_dead(region, node) || can_shrink(region, node),
        None => false,
    }
}

fn can_shrink(region: &Region, node: &Node) -> bool
    ensures { result ≡ is_some (shrunk region.now node.now) }
{
    match node.op {
        Op::Gamma => can_shrink_gamma(region, node),
        Op::Theta => can_shrink_theta(region, node),
        _ => false,
    }
}

// Where all exit variables stay, the results that the entry variables are asked at are all of them.
fn can_shrink_gamma(region: &Region, node: &Node) -> bool
    requires { op_of node.now ≡ Gamma }
    ensures { result ≡ is_some (shrunk region.now node.now) }
{
    if !all_stay(&Exits { region, node }) {
        return true;
    }
    let entries = Entries {
        regions: &node.regions,
        exits: &[],
    };
    !all_stay(&entries)
}

fn can_shrink_theta(region: &Region, node: &Node) -> bool
    requires { op_of node.now ≡ Theta }
    ensures { result ≡ is_some (shrunk region.now node.now) }
{
    if node.regions.len() != 1 {
        return false;
    }
    let variables = Variables {
        region,
        id: node.id,
        nested: &node.regions[0],
    };
    !all_stay(&variables)
}

/// What is to go of the node of this number; none where nothing is, or the region does not hold it.
/// `NoMemory` only where the allocator has none.
pub fn plan_at(alloc: Global, region: &Region, id: u32) -> Result<Option<Plan>, NoMemory>
    ensures { IfOk result (λ plan. planned id region.now plan ≡ dne_here id region.now) }
{
    match node_at(&region.nodes, id) {
        Some(node) => node_plan(alloc, region, node),
        None => Ok(None),
    }
}

fn node_plan(alloc: Global, region: &Region, node: &Node) -> Result<Option<Plan>, NoMemory>
    ensures { IfOk result (λ plan.
        planned (id_of node.now) region.now plan ≡ eliminated region.now node.now) }
{
    if is_dead(region, node) {
        return Ok(Some(Plan::Node));
    }
    match node.op {
        Op::Gamma => gamma_plan(alloc, region, node),
        Op::Theta => theta_plan(alloc, region, node),
        _ => Ok(None),
    }
}

fn gamma_plan(alloc: Global, region: &Region, node: &Node) -> Result<Option<Plan>, NoMemory>
    requires { op_of node.now ≡ Gamma }
    ensures { IfOk result (λ plan.
        planned (id_of node.now) region.now plan ≡ shrunk region.now node.now) }
{
    let exits = list_of(alloc, &Exits { region, node })?;
    let variables = Entries {
        regions: &node.regions,
        exits: &exits,
    };
    let entries = list_of(alloc, &variables)?;
    if are_all_true(&exits) && are_all_true(&entries) {
        return Ok(None);
    }
    Ok(Some(Plan::Gamma(exits, entries)))
}

fn theta_plan(alloc: Global, region: &Region, node: &Node) -> Result<Option<Plan>, NoMemory>
    requires { op_of node.now ≡ Theta }
    ensures { IfOk result (λ plan.
        planned (id_of node.now) region.now plan ≡ shrunk region.now node.now) }
{
    if node.regions.len() != 1 {
        return Ok(None);
    }
    let variables = Variables {
        region,
        id: node.id,
        nested: &node.regions[0],
    };
    let stays = list_of(alloc, &variables)?;
    if are_all_true(&stays) {
        return Ok(None);
    }
    Ok(Some(Plan::Theta(stays)))
}
