//! Which uses may move, and the plan for them.

ghost use Rattle.std.specs.Prelude.{◌≡◌, IfOk, is_some};
ghost use Rattle.g_graph.specs.declared.op.Op.TheVariants.{Gamma, Theta};
ghost use Rattle.g_graph.specs.Plain.{id_of, op_of};
ghost use Rattle.r_inv.specs.Rule.{moved, inv_here};
ghost use Rattle.r_inv.specs.Plan.{planned, fits_planned};

use crate::carried::{list_of, some_used, staying};
use crate::gamma::Exits;
use crate::plan::Plan;
use crate::theta::Variables;
use base::NoMemory;
use g_graph::{Node, Op, Region, node_at};
use std::alloc::Global;

/// Whether the region holds the node of this number, and uses of outputs of it may move.
pub fn can_redirect(region: &Region, id: u32) -> bool
    ensures { result ≡ is_some (inv_here id region.now) }
{
    match node_at(&region.nodes, id) {
        Some(node) => can_move(region, node),
        None => false,
    }
}

fn can_move(region: &Region, node: &Node) -> bool
    ensures { result ≡ is_some (moved region.now node.now) }
{
    match node.op {
        Op::Gamma => can_move_exits(region, node),
        Op::Theta => can_move_variables(region, node),
        _ => false,
    }
}

fn can_move_exits(region: &Region, node: &Node) -> bool
    requires { op_of node.now ≡ Gamma }
    ensures { result ≡ is_some (moved region.now node.now) }
{
    let exits = Exits {
        inputs: node.inputs.as_slice(),
        regions: &node.regions,
    };
    some_used(region, node.id, &exits)
}

fn can_move_variables(region: &Region, node: &Node) -> bool
    requires { op_of node.now ≡ Theta }
    ensures { result ≡ is_some (moved region.now node.now) }
{
    if node.regions.len() != 1 {
        return false;
    }
    let variables = Variables {
        inputs: node.inputs.as_slice(),
        nested: &node.regions[0],
    };
    some_used(region, node.id, &variables)
}

/// Which uses of outputs of the node of this number are to move; none where none is, or the region
/// does not hold it. `NoMemory` only where the allocator has none.
pub fn plan_at(alloc: Global, region: &Region, id: u32) -> Result<Option<Plan>, NoMemory>
    ensures plan { IfOk result (λ plan. planned id region.now plan ≡ inv_here id region.now) }
    ensures fits { IfOk result (λ plan. fits_planned plan) }
{
    match node_at(&region.nodes, id) {
        Some(node) => node_plan(alloc, region, node),
        None => Ok(None),
    }
}

fn node_plan(alloc: Global, region: &Region, node: &Node) -> Result<Option<Plan>, NoMemory>
    ensures plan { IfOk result (λ plan.
        planned (id_of node.now) region.now plan ≡ moved region.now node.now) }
    ensures fits { IfOk result (λ plan. fits_planned plan) }
{
    match node.op {
        Op::Gamma => gamma_plan(alloc, region, node),
        Op::Theta => theta_plan(alloc, region, node),
        _ => Ok(None),
    }
}

fn gamma_plan(alloc: Global, region: &Region, node: &Node) -> Result<Option<Plan>, NoMemory>
    requires { op_of node.now ≡ Gamma }
    ensures plan { IfOk result (λ plan.
        planned (id_of node.now) region.now plan ≡ moved region.now node.now) }
    ensures fits { IfOk result (λ plan. fits_planned plan) }
{
    let exits = Exits {
        inputs: node.inputs.as_slice(),
        regions: &node.regions,
    };
    if !some_used(region, node.id, &exits) {
        return Ok(None);
    }
    let carried = list_of(alloc, &exits)?;
    let stays = staying(alloc, &carried)?;
    Ok(Some(Plan::Gamma(carried, stays)))
}

fn theta_plan(alloc: Global, region: &Region, node: &Node) -> Result<Option<Plan>, NoMemory>
    requires { op_of node.now ≡ Theta }
    ensures plan { IfOk result (λ plan.
        planned (id_of node.now) region.now plan ≡ moved region.now node.now) }
    ensures fits { IfOk result (λ plan. fits_planned plan) }
{
    if node.regions.len() != 1 {
        return Ok(None);
    }
    let variables = Variables {
        inputs: node.inputs.as_slice(),
        nested: &node.regions[0],
    };
    if !some_used(region, node.id, &variables) {
        return Ok(None);
    }
    let carried = list_of(alloc, &variables)?;
    Ok(Some(Plan::Theta(carried)))
}
