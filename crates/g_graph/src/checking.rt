//! Whether a lambda is well formed.

ghost use Rattle.std.specs.Prelude.{◌≡◌, [], ◌∷◌, ◌++◌, map, replicate, ◌&&◌};
ghost use Rattle.g_graph.specs.declared.op.Kind.TheVariants.{Value, Memory, Io};
ghost use Rattle.g_graph.specs.declared.op.Op.TheVariants.{Gamma};
ghost use Rattle.g_graph.specs.Plain.{node, nodes_of, regions_of, args_of};
ghost use Rattle.g_graph.specs.Signatures.{output_kinds, result_kinds};
ghost use Rattle.g_graph.specs.Scope.{known, is_of, same_kind, each_node};
ghost use Rattle.g_graph.specs.WellFormed.{are, same, some_of, kinds_of, all_regions, one_state_each, has_its_regions, regions_fit, theta_has_states, has_its_width, has_its_object, inputs_fit, node_has_one_state_each, region_has_one_state_each, node_fits, gives, returns_state, region_fits, every_region, every_in_node, well_formed};

use crate::kind_lists::{
    are_values_and_states, count_of_args, count_of_origins, count_of_outputs, have_kinds,
    have_value_and, have_values_and_states, match_known, same_kinds,
};
use crate::kinds::{first_args, op_inputs};
use crate::objects::{is_width, objects_fit};
use crate::states::all_last;
use crate::unique::numbers_fit;
use crate::{Kind, Lambda, Node, Op, Origin, Region};

/// Whether the lambda is well formed. It takes no memory, and time at most cubic in the lambda.
pub fn check(lambda: &Lambda) -> bool
    ensures { result ≡ well_formed lambda.now }
{
    body_fits(&lambda.body, lambda.params)
        && numbers_fit(&lambda.body, lambda.next)
        && every_region_fits(&lambda.body, lambda.objects.len())
        && objects_fit(&lambda.objects)
}

fn body_fits(body: &Region, params: u32) -> bool
    ensures { result ≡ (same (args_of body.now) (replicate params Value ++ Memory ∷ Io ∷ [])
        && are (result_kinds body.now) (Value ∷ Memory ∷ Io ∷ [])) }
{
    are_values_and_states(&body.args, params)
        && have_kinds(
            &body.args,
            &body.nodes,
            &body.results,
            &[Kind::Value, Kind::Memory, Kind::Io],
        )
}

#[cycle(nests)]
fn every_region_fits(region: &Region, objects: usize) -> bool
    ensures { result ≡ every_region (region_fits objects) region.now }
{
    if !region_fits(region, objects) {
        return false;
    }
    for node in &region.nodes {
        if !every_in_node_fits(node, objects) {
            return false;
        }
    }
    true
}

#[cycle(nests)]
fn every_in_node_fits(node: &Node, objects: usize) -> bool
    ensures { result ≡ every_in_node (region_fits objects) node.now }
{
    for region in &node.regions {
        if !every_region_fits(region, objects) {
            return false;
        }
    }
    true
}

fn region_fits(region: &Region, objects: usize) -> bool
    ensures { result ≡ region_fits objects region.now }
{
    nodes_fit(&region.args, &region.nodes, objects)
        && all_last(&region.args, &region.nodes, &region.results)
        && returns_state(region, Kind::Memory)
        && returns_state(region, Kind::Io)
        && region_has_one_state_each(region)
}

fn nodes_fit(args: &[Kind], nodes: &[Node], objects: usize) -> bool
    ensures { result ≡ each_node (node_fits objects args.now) [] (nodes_of nodes.now) }
{
    for (i, node) in nodes.iter().enumerate() {
        if !node_fits(node, args, &nodes[..i], objects) {
            return false;
        }
    }
    true
}

fn returns_state(region: &Region, kind: Kind) -> bool
    ensures { result ≡ returns_state kind region.now }
{
    !gives(&region.nodes, kind) || have_state(&region.args, &region.nodes, &region.results, kind)
}

fn gives(nodes: &[Node], kind: Kind) -> bool
    ensures { result ≡ gives kind (nodes_of nodes.now) }
{
    for node in nodes {
        if has_output(node, kind) {
            return true;
        }
    }
    false
}

#[tactic(auto, using(crate::proofs::KindLemmas::some_of_count))]
fn has_output(node: &Node, kind: Kind) -> bool
    ensures { result ≡ some_of (is_of kind) (output_kinds node.now) }
{
    count_of_outputs(node, kind) > 0
}

#[tactic(auto, using(crate::proofs::KindLemmas::some_of_count))]
fn have_state(args: &[Kind], before: &[Node], origins: &[Origin], kind: Kind) -> bool
    ensures { result ≡ some_of (is_of kind)
        (map (known args.now (nodes_of before.now)) origins.now) }
{
    count_of_origins(args, before, origins, kind) > 0
}

#[tactic(auto, using(crate::proofs::KindLemmas::at_most_one_count))]
fn region_has_one_state_each(region: &Region) -> bool
    ensures { result ≡ region_has_one_state_each region.now }
{
    count_of_args(&region.args, Kind::Memory) <= 1
        && count_of_args(&region.args, Kind::Io) <= 1
        && origins_have_one_state_each(&region.args, &region.nodes, &region.results)
}

#[tactic(auto, using(crate::proofs::KindLemmas::at_most_one_count))]
fn origins_have_one_state_each(args: &[Kind], before: &[Node], origins: &[Origin]) -> bool
    ensures { result ≡ one_state_each (map (known args.now (nodes_of before.now)) origins.now) }
{
    count_of_origins(args, before, origins, Kind::Memory) <= 1
        && count_of_origins(args, before, origins, Kind::Io) <= 1
}

fn node_fits(node: &Node, args: &[Kind], before: &[Node], objects: usize) -> bool
    ensures { result ≡ node_fits objects args.now (nodes_of before.now) node.now }
{
    inputs_fit(node, args, before)
        && all_last(args, before, node.inputs.as_slice())
        && node_has_one_state_each(node, args, before)
        && has_its_regions(node)
        && regions_fit(node)
        && theta_has_states(node)
        && has_its_width(node)
        && has_its_object(node, objects)
}

fn inputs_fit(node: &Node, args: &[Kind], before: &[Node]) -> bool
    ensures { result ≡ inputs_fit args.now (nodes_of before.now) node.now }
{
    let inputs = node.inputs.as_slice();
    match node.op {
        Op::Apply(_) => have_values_and_states(args, before, inputs),
        Op::Gamma => have_value_and(args, before, inputs, first_args(&node.regions)),
        Op::Theta => have_kinds(args, before, inputs, first_args(&node.regions)),
        op => have_kinds(args, before, inputs, op_inputs(op)),
    }
}

#[tactic(auto, using(crate::proofs::KindLemmas::at_most_one_count))]
fn node_has_one_state_each(node: &Node, args: &[Kind], before: &[Node]) -> bool
    ensures { result ≡ node_has_one_state_each args.now (nodes_of before.now) node.now }
{
    origins_have_one_state_each(args, before, node.inputs.as_slice())
        && count_of_outputs(node, Kind::Memory) <= 1
        && count_of_outputs(node, Kind::Io) <= 1
}

#[tactic(auto, using(crate::proofs::KindLemmas::gamma_has_regions, crate::proofs::KindLemmas::theta_has_region, crate::proofs::KindLemmas::has_no_regions))]
fn has_its_regions(node: &Node) -> bool
    ensures { result ≡ has_its_regions node.now }
{
    match node.op {
        Op::Gamma => !node.regions.is_empty(),
        Op::Theta => node.regions.len() == 1,
        _ => node.regions.is_empty(),
    }
}

fn regions_fit(node: &Node) -> bool
    ensures { result ≡ regions_fit node.now }
{
    match node.op {
        Op::Gamma => gamma_regions_fit(&node.regions),
        Op::Theta => theta_regions_fit(&node.regions),
        _ => true,
    }
}

fn gamma_regions_fit(regions: &[Region]) -> bool
    ensures { result ≡ regions_fit (node 0 Gamma [] (regions_of regions.now)) }
{
    match regions.first() {
        Some(first) => regions_have_kinds(regions, first),
        None => true,
    }
}

// Whether each region has the arguments of this one, and its results where their kinds are known.
fn regions_have_kinds(regions: &[Region], first: &Region) -> bool
    ensures { result ≡ all_regions (λ r. same (args_of r) (args_of first.now)
        && are (result_kinds r) (kinds_of (result_kinds first.now))) (regions_of regions.now) }
{
    for region in regions {
        if !has_kinds(region, first) {
            return false;
        }
    }
    true
}

fn has_kinds(region: &Region, first: &Region) -> bool
    ensures { result ≡ (same (args_of region.now) (args_of first.now)
        && are (result_kinds region.now) (kinds_of (result_kinds first.now))) }
{
    same_kinds(&region.args, &first.args)
        && match_known(
            &region.args,
            &region.nodes,
            &region.results,
            &first.args,
            &first.nodes,
            &first.results,
        )
}

fn theta_regions_fit(regions: &[Region]) -> bool
    ensures { result ≡ all_regions (λ r.
        are (result_kinds r) (Value ∷ args_of r)) (regions_of regions.now) }
{
    for region in regions {
        if !theta_region_fits(region) {
            return false;
        }
    }
    true
}

fn theta_region_fits(region: &Region) -> bool
    ensures { result ≡ are (result_kinds region.now) (Value ∷ args_of region.now) }
{
    have_value_and(&region.args, &region.nodes, &region.results, &region.args)
}

fn theta_has_states(node: &Node) -> bool
    ensures { result ≡ theta_has_states node.now }
{
    match node.op {
        Op::Theta => regions_take_states(&node.regions),
        _ => true,
    }
}

fn regions_take_states(regions: &[Region]) -> bool
    ensures { result ≡ all_regions (λ r. some_of (same_kind Memory) (args_of r)
        && some_of (same_kind Io) (args_of r)) (regions_of regions.now) }
{
    for region in regions {
        if !takes_states(region) {
            return false;
        }
    }
    true
}

#[tactic(auto, using(crate::proofs::KindLemmas::some_of_args))]
fn takes_states(region: &Region) -> bool
    ensures { result ≡ (some_of (same_kind Memory) (args_of region.now)
        && some_of (same_kind Io) (args_of region.now)) }
{
    count_of_args(&region.args, Kind::Memory) > 0 && count_of_args(&region.args, Kind::Io) > 0
}

fn has_its_width(node: &Node) -> bool
    ensures { result ≡ has_its_width node.now }
{
    match node.op {
        Op::Load(width) | Op::Store(width) => is_width(width),
        _ => true,
    }
}

fn has_its_object(node: &Node, objects: usize) -> bool
    ensures { result ≡ has_its_object objects node.now }
{
    match node.op {
        Op::Local(index) | Op::Clear(index) => (index as usize) < objects,
        _ => true,
    }
}
