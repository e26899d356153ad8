//! The plan for a node with regions, one of which comes instead of it.

ghost use Rattle.std.specs.Prelude.{◌≡◌, IfOk, is_some, option_map, option_copied};
ghost use Rattle.g_graph.specs.Plain.{nodes_of, regions_of};
ghost use Rattle.g_graph.specs.Replace.{region_redirected};
ghost use Rattle.g_graph.specs.Splice.{args_to_inputs};
ghost use Rattle.r_fold.specs.Rule.{chosen_region, chosen_place, theta_folded};
ghost use Rattle.r_fold.specs.Plan.{planned, gamma_case, theta_case, replacement_case, runs_once, has_one_turn};

use crate::plan::{Plan, is_word};
use base::NoMemory;
use g_graph::{ArgsToInputs, Node, Op, Origin, Region, constant, copy_region, redirect_region};
use std::alloc::Global;

/// Whether one of its regions comes instead of a node.
#[tactic(auto, using(crate::proofs::PlanLemmas::theta_turn))]
pub fn has_replacement(nodes: &[Node], node: &Node) -> bool
    ensures { result ≡ is_some (replacement_case (nodes_of nodes.now) node.now) }
{
    match node.op {
        Op::Gamma => has_choice(nodes, node.inputs.as_slice(), &node.regions),
        Op::Theta => has_one_turn(&node.regions),
        _ => false,
    }
}

/// The plan for a node with regions; none where the rule does not fold it. `NoMemory` only where
/// the allocator has none.
pub fn replacement_plan(
    alloc: Global,
    nodes: &[Node],
    node: &Node,
) -> Result<Option<Plan>, NoMemory>
    ensures { IfOk result (λ plan. plan ≡
        option_map planned (replacement_case (nodes_of nodes.now) node.now)) }
{
    match node.op {
        Op::Gamma => choice_plan(alloc, nodes, node.inputs.as_slice(), &node.regions),
        Op::Theta => one_turn_plan(alloc, node.inputs.as_slice(), &node.regions),
        _ => Ok(None),
    }
}

fn has_choice(nodes: &[Node], inputs: &[Origin], regions: &[Region]) -> bool
    ensures { result ≡ is_some (gamma_case (nodes_of nodes.now) inputs.now
        (regions_of regions.now)) }
{
    match inputs.first() {
        Some(predicate) => match constant(nodes, *predicate) {
            Some(word) => chosen_region(regions, word).is_some(),
            None => false,
        },
        None => false,
    }
}

fn choice_plan(
    alloc: Global,
    nodes: &[Node],
    inputs: &[Origin],
    regions: &[Region],
) -> Result<Option<Plan>, NoMemory>
    ensures { IfOk result (λ plan. plan ≡
        option_map planned (gamma_case (nodes_of nodes.now) inputs.now
        (regions_of regions.now))) }
{
    match inputs.split_first() {
        Some((predicate, entries)) => match constant(nodes, *predicate) {
            Some(word) => choice_on(alloc, regions, word, entries),
            None => Ok(None),
        },
        None => Ok(None),
    }
}

fn choice_on(
    alloc: Global,
    regions: &[Region],
    word: u32,
    entries: &[Origin],
) -> Result<Option<Plan>, NoMemory>
    ensures { IfOk result (λ plan. plan ≡
        option_map (λ r. Plan.Replacement (region_redirected (args_to_inputs entries.now) r))
        (chosen_region word (regions_of regions.now))) }
{
    match chosen_region(regions, word) {
        Some(region) => Ok(Some(Plan::Replacement(placed_region(alloc, region, entries)?))),
        None => Ok(None),
    }
}

/// The place of the region that a constant predicate chooses: of n regions min(word, n - 1).
#[tactic(auto, using(crate::proofs::PlanLemmas::place_within, crate::proofs::PlanLemmas::place_last))]
pub fn chosen_place(regions: &[Region], word: u32) -> usize
    ensures { result ≡ chosen_place word (regions_of regions.now) }
{
    let place = word as usize;
    if place < regions.len() {
        place
    } else {
        regions.len().saturating_sub(1)
    }
}

// Of n regions the one numbered min(word, n - 1).
fn chosen_region(regions: &[Region], word: u32) -> Option<&Region>
    ensures { option_copied result ≡ chosen_region word (regions_of regions.now) }
{
    match regions.get(word as usize) {
        Some(region) => Some(region),
        None => regions.last(),
    }
}

/// Whether there is one region, whose first result is a constant 0 of it.
pub fn has_one_turn(regions: &[Region]) -> bool
    ensures { result ≡ has_one_turn (regions_of regions.now) }
{
    regions.len() == 1 && runs_once(&regions[0])
}

fn one_turn_plan(
    alloc: Global,
    inputs: &[Origin],
    regions: &[Region],
) -> Result<Option<Plan>, NoMemory>
    ensures { IfOk result (λ plan. plan ≡
        option_map planned (theta_case inputs.now (regions_of regions.now))) }
{
    if regions.len() != 1 {
        return Ok(None);
    }
    one_turn(alloc, &regions[0], inputs)
}

fn one_turn(alloc: Global, region: &Region, inputs: &[Origin]) -> Result<Option<Plan>, NoMemory>
    ensures { IfOk result (λ plan.
        plan ≡ option_map planned (theta_folded region.now inputs.now)) }
{
    if !runs_once(region) {
        return Ok(None);
    }
    match region.results.split_first() {
        Some((_, results)) => {
            let mut replacement = placed_region(alloc, region, inputs)?;
            replacement.results.remove(0);
            Ok(Some(Plan::Replacement(replacement)))
        }
        None => Ok(None),
    }
}

// Whether the region, repeated while its first result is not 0, runs once as that is a constant 0.
fn runs_once(region: &Region) -> bool
    ensures { result ≡ runs_once region.now }
{
    match region.results.first() {
        Some(predicate) => is_word(Some(0), constant(&region.nodes, *predicate)),
        None => false,
    }
}

// A copy of the region with these inputs instead of its arguments.
fn placed_region(alloc: Global, region: &Region, inputs: &[Origin]) -> Result<Region, NoMemory>
    ensures { IfOk result (λ replacement. replacement ≡
        region_redirected (args_to_inputs inputs.now) region.now) }
{
    let mut replacement = copy_region(alloc, region)?;
    redirect_region(&mut replacement, &ArgsToInputs { inputs });
    Ok(replacement)
}
