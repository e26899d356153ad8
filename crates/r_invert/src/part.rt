//! What comes in the place of a loop.

ghost use Rattle.std.specs.Prelude.{◌≡◌, IfOk, IsTrue, is_some, option_and_then};
ghost use Rattle.std.specs.declared.option.Option.TheVariants.{Some};
ghost use Rattle.g_graph.specs.Plain.{region, args_of, nodes_in, regions_of};
ghost use Rattle.g_graph.specs.WellFormed.{IsWellFormed};
ghost use Rattle.r_edit.specs.Found.{region_found};
ghost use Rattle.r_invert.specs.Edit.{loop_at, body_part, regions_part, loop_part, parts_from, made_of, made_end, CanMake, Makes, AreMade, IsMade, CanMakeOf, CanMakeEnd};
ghost use Rattle.r_invert.specs.Rule.{giving, but_last, inverted};

use crate::find::find_loop;
use crate::made::inverted;
use base::NoMemory;
use g_graph::{Lambda, Node, Origin, OutputsToResults, Region, copy_region, redirect_origins};
use std::alloc::Global;

/// What comes in the place of the loop of this number that is found first in the lambda, with
/// numbers from the lambda's `next` on; its arguments are the loop's inputs.
pub fn part_of(alloc: Global, lambda: &Lambda, values: u64, id: u32) -> Result<Region, NoMemory>
    requires well_formed { IsWellFormed lambda.now }
    requires found { IsTrue (is_some
        (region_found (loop_at values lambda.now.next id) lambda.now.body)) }
    ensures { IfOk result (λ part. option_and_then (loop_part lambda.now.next)
        (region_found (loop_at values lambda.now.next id) lambda.now.body) ≡ Some part) }
{
    match find_loop(&lambda.body, values, lambda.next, id) {
        Some(node) => loop_part(alloc, node, lambda.next),
        None => unreachable!(),
    }
}

fn loop_part(alloc: Global, node: &Node, next: u32) -> Result<Region, NoMemory>
    requires { IsMade next node.now }
    ensures { IfOk result (λ part. loop_part next node.now ≡ Some part) }
{
    regions_part(alloc, &node.regions, next)
}

/// What comes in the place of a loop with these regions, with numbers from `next` on; its arguments
/// are the loop's inputs. It takes time n log n in the regions.
#[tactic(auto, using(crate::proofs::Remade::one_length))]
pub fn regions_part(alloc: Global, regions: &[Region], next: u32) -> Result<Region, NoMemory>
    requires { AreMade next (regions_of regions.now) }
    ensures { IfOk result (λ part. regions_part next (regions_of regions.now) ≡ Some part) }
{
    body_part(alloc, &regions[0], next)
}

fn body_part(alloc: Global, region: &Region, next: u32) -> Result<Region, NoMemory>
    requires { Makes next region.now }
    ensures { IfOk result (λ part. body_part next region.now ≡ Some part) }
{
    match (region.nodes.last(), region.results.split_first()) {
        (Some(last), Some((_, variables))) => made_end(alloc, region, variables, last, next),
        _ => unreachable!(),
    }
}

// The inverted loop with the parts of the region, which ends with this Gamma.
fn made_end(
    alloc: Global,
    whole: &Region,
    variables: &[Origin],
    last: &Node,
    next: u32,
) -> Result<Region, NoMemory>
    requires { CanMakeEnd next whole.now variables.now last.now }
    ensures { IfOk result (λ part. made_end next whole.now variables.now last.now ≡ Some part) }
{
    let inputs = last.inputs.as_slice();
    made_of(
        alloc,
        whole,
        last.id,
        inputs,
        variables,
        &last.regions,
        next,
    )
}

#[tactic(auto, using(crate::proofs::Remade::two_length))]
fn made_of(
    alloc: Global,
    whole: &Region,
    id: u32,
    inputs: &[Origin],
    variables: &[Origin],
    regions: &[Region],
    next: u32,
) -> Result<Region, NoMemory>
    requires { CanMakeOf next whole.now id inputs.now variables.now (regions_of regions.now) }
    ensures { IfOk result (λ part.
        made_of next whole.now id inputs.now variables.now (regions_of regions.now) ≡ Some part) }
{
    two_made(
        alloc,
        whole,
        id,
        inputs,
        variables,
        &regions[0],
        &regions[1],
        next,
    )
}

fn two_made(
    alloc: Global,
    whole: &Region,
    id: u32,
    inputs: &[Origin],
    variables: &[Origin],
    stop: &Region,
    go: &Region,
    next: u32,
) -> Result<Region, NoMemory>
    requires { CanMake next
        (parts_from whole.now id inputs.now variables.now stop.now go.now) }
    ensures { IfOk result (λ part. part ≡
        inverted next (parts_from whole.now id inputs.now variables.now stop.now go.now)) }
{
    let test = test_of(alloc, whole, inputs)?;
    let stop = giving(alloc, id, variables, stop)?;
    let go = giving(alloc, id, variables, go)?;
    let made = inverted(alloc, &test, &stop, &go, next)?;
    Ok(made.region)
}

// The region without its last node, with these results.
fn test_of(alloc: Global, whole: &Region, results: &[Origin]) -> Result<Region, NoMemory>
    ensures { IfOk result (λ test. test ≡
        region (args_of whole.now) (but_last (nodes_in whole.now)) results.now) }
{
    let mut test = copy_region(alloc, whole)?;
    drop(test.nodes.pop());
    test.results = Vec::from_slice(alloc, results)?;
    Ok(test)
}

// A region of a Gamma, which gives what becomes these outputs of it.
fn giving(alloc: Global, id: u32, outputs: &[Origin], region: &Region) -> Result<Region, NoMemory>
    ensures { IfOk result (λ made. made ≡ giving id outputs.now region.now) }
{
    let mut made = copy_region(alloc, region)?;
    let mut results = Vec::from_slice(alloc, outputs)?;
    redirect_origins(
        results.as_mut_slice(),
        &OutputsToResults {
            at: id,
            outputs: &region.results,
        },
    );
    made.results = results;
    Ok(made)
}
