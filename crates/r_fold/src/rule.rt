//! Where the rule applies, and what it does there.

ghost use Rattle.std.specs.Prelude.{◌≡◌, List, MatchBool, IfOk, OnOk, OnErr, IsTrue, is_some, option_map, option_and_then};
ghost use Rattle.std.specs.declared.option.Option.TheVariants.{Some, None};
ghost use Rattle.g_graph.specs.Plain.{nodes_of, nodes_in, PlainLambda};
ghost use Rattle.g_graph.specs.WellFormed.{IsWellFormed};
ghost use Rattle.g_graph.specs.Nodes.{node_at};
ghost use Rattle.r_fold.specs.Rule.{folding, folded, fold_here, applies, fold};
ghost use Rattle.r_edit.specs.Steps.{MayStandFor};
ghost use Rattle.r_fold.specs.Plan.{planned};

use crate::edit::{can_carry_out, carry_out};
use crate::plan::{Plan, plain_plan};
use crate::replacement::{has_replacement, replacement_plan};
use base::NoMemory;
use g_graph::{Lambda, Node, Region, node_at};
use r_edit::RegionRule;
use std::alloc::Global;

/// Whether the rule applies at the node of this number: a Bin or Un node whose inputs are
/// constants, or of which one is neutral where its output is used, a Gamma whose predicate is a
/// constant, or a Theta whose predicate is a constant 0 of its region. It is false for a number
/// that is not there. It takes no memory, and time linear in the lambda.
pub fn applies(lambda: &Lambda, node: u32) -> bool
    ensures { result ≡ applies lambda.now node }
{
    r_edit::applies(&Folding { node }, lambda)
}

/// Folds the node: it becomes the constant that it gives, its uses become uses of the other
/// operand, or the chosen or repeated region stands instead of it. It takes time linear in the
/// lambda. Where memory runs out nothing changes.
pub fn apply(alloc: Global, lambda: &mut Lambda, node: u32) -> Result<(), NoMemory>
    requires well_formed { IsWellFormed lambda.old }
    requires applies { IsTrue (applies lambda.old node) }
    ensures ok { OnOk result (lambda.new ≡ fold node lambda.old) }
    ensures step { OnOk result ((held : List PlainLambda) →
        MayStandFor held lambda.old lambda.new) }
    ensures err { OnErr result (lambda.new ≡ lambda.old) }
{
    r_edit::apply(&Folding { node }, alloc, lambda)
}

// The rule at the node of this number.
#[derive(Drop)]
struct Folding {
    node: u32,
}

impl RegionRule for Folding {
    type Memory = Global;

    type Fault = NoMemory;

    ghost here = { λ r. fold_here r.node };

    fn can(&self, region: &Region) -> bool {
        can_fold(region, self.node)
    }

    fn make(&self, alloc: Global, region: &mut Region) -> Result<bool, NoMemory> {
        fold_region(alloc, region, self.node)
    }
}

/// Whether the region holds the node of this number, and the node can be folded.
pub fn can_fold(region: &Region, id: u32) -> bool
    ensures { result ≡ is_some (fold_here id region.now) }
{
    match node_at(&region.nodes, id) {
        Some(node) => node_folds(region, id, node),
        None => false,
    }
}

#[tactic(auto, using(crate::proofs::PlanLemmas::folding_cases, crate::proofs::PlanLemmas::carried_out_planned, crate::proofs::PlanLemmas::replacement_folds))]
fn node_folds(region: &Region, id: u32, node: &Node) -> bool
    ensures { result ≡ is_some (option_and_then (λ f.
        folded id region.now f) (folding (nodes_in region.now) node.now)) }
{
    match plain_plan(&region.nodes, node) {
        Some(plan) => can_carry_out(region, id, &plan),
        None => has_replacement(&region.nodes, node),
    }
}

// Folds the node in the region that holds it, where it can be, and answers whether it was.
fn fold_region(alloc: Global, region: &mut Region, id: u32) -> Result<bool, NoMemory>
    ensures ok { IfOk result (λ done.
        MatchBool done (fold_here id region.old ≡
        Some region.new) ((fold_here id region.old ≡ None) × (region.new ≡ region.old))) }
    ensures err { OnErr result (region.new ≡ region.old) }
{
    match plan_at(alloc, region, id)? {
        Some(plan) => carry_out(alloc, region, id, plan),
        None => Ok(false),
    }
}

fn plan_at(alloc: Global, region: &Region, id: u32) -> Result<Option<Plan>, NoMemory>
    ensures { IfOk result (λ plan. plan ≡
        option_map planned (option_and_then (folding (nodes_in region.now))
        (node_at id (nodes_in region.now)))) }
{
    match node_at(&region.nodes, id) {
        Some(node) => node_plan(alloc, &region.nodes, node),
        None => Ok(None),
    }
}

#[tactic(auto, using(crate::proofs::PlanLemmas::folding_planned))]
fn node_plan(alloc: Global, nodes: &[Node], node: &Node) -> Result<Option<Plan>, NoMemory>
    ensures { IfOk result (λ plan. plan ≡
        option_map planned (folding (nodes_of nodes.now) node.now)) }
{
    match plain_plan(nodes, node) {
        Some(plan) => Ok(Some(plan)),
        None => replacement_plan(alloc, nodes, node),
    }
}
