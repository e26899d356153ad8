//! The second turn, as it is made.

ghost use Rattle.std.specs.Prelude.{◌≡◌, ◌<◌, ◌≤◌, ◌+◌, ◌^◌, [], ◌∷◌, IfOk, length, IsTrue, is_some, option_map};
ghost use Rattle.std.specs.declared.option.Option.TheVariants.{Some};
ghost use Rattle.base.specs.Limits.{most_loop_values};
ghost use Rattle.g_graph.specs.declared.op.Origin.TheVariants.{Arg, Out};
ghost use Rattle.g_graph.specs.Count.{region_values};
ghost use Rattle.g_graph.specs.Plain.{node, no_regions};
ghost use Rattle.g_graph.specs.declared.op.Op.TheVariants.{Const};
ghost use Rattle.g_mean.specs.Copies.{IsClosed};
ghost use Rattle.r_edit.specs.Found.{region_found};
ghost use Rattle.r_edit.specs.Origins.{origins_from};
ghost use Rattle.r_edit.specs.Numbering.{node_count};
ghost use Rattle.r_unroll.specs.Edit.{loop_at, results_after, next_after};
ghost use Rattle.r_unroll.specs.Rule.{stopping, second_turn_of};

use crate::find::find_loop;
use base::NoMemory;
use g_graph::{Kind, Node, Op, Origin, Region};
use r_edit::{arguments, copy_numbered, outputs_of};
use smallvec::SmallVec;
use std::alloc::Global;

/// What the region of an unrolled loop gets: its last node, its results, and the number after those
/// of the nodes that come.
#[derive(Drop)]
pub struct Turn {
    pub last: Node,
    pub results: Vec<Origin>,
    pub next: u32,
}

/// The second turn of the loop of this number that is found first in the region or one nested in
/// it, with numbers from `next` on.
#[tactic(auto, using(crate::proofs::Made::found_closed, crate::proofs::Made::found_small, crate::proofs::Made::found_numbers))]
pub fn turn_of(
    alloc: Global,
    region: &Region,
    values: u64,
    next: u32,
    id: u32,
) -> Result<Turn, NoMemory>
    requires closed { IsClosed region.now }
    requires found { IsTrue (is_some (region_found (loop_at values next id) region.now)) }
    ensures last { IfOk result (λ turn. option_map (second_turn_of next)
        (region_found (loop_at values next id) region.now) ≡ Some turn.last) }
    ensures results { IfOk result (λ turn. option_map (results_after next)
        (region_found (loop_at values next id) region.now) ≡ Some turn.results.items) }
    ensures next { IfOk result (λ turn. option_map (next_after next)
        (region_found (loop_at values next id) region.now) ≡ Some turn.next) }
{
    match find_loop(region, values, next, id) {
        Some(body) => second_turn(alloc, body, next),
        None => unreachable!(),
    }
}

/// The second turn of a loop with this region, with numbers from `next` on.
pub fn second_turn(alloc: Global, region: &Region, next: u32) -> Result<Turn, NoMemory>
    requires closed { IsClosed region.now }
    requires small { region_values region.now ≤ most_loop_values }
    requires numbers { next + 2 + node_count region.now < 2 ^ 32 }
    ensures last { IfOk result (λ turn. turn.last ≡ second_turn_of next region.now) }
    ensures results { IfOk result (λ turn. turn.results.items ≡
        results_after next region.now) }
    ensures next { IfOk result (λ turn. turn.next ≡ next_after next region.now) }
{
    let results = outputs_of(alloc, next, region.results.len())?;
    let inputs = SmallVec::from_slice(alloc, &region.results)?;
    let mut regions = Vec::with_capacity(alloc, 2)?;
    regions.push(stopping(alloc, next + 1, &region.args)?)?;
    let copy = copy_numbered(alloc, region, next + 2)?;
    regions.push(copy.region)?;
    Ok(Turn {
        last: Node {
            id: next,
            op: Op::Gamma,
            inputs,
            regions,
        },
        results,
        next: copy.next,
    })
}

// The region that takes no second turn.
fn stopping(alloc: Global, id: u32, args: &[Kind]) -> Result<Region, NoMemory>
    requires { length args.now < 2 ^ 32 }
    ensures { IfOk result (λ region. region ≡ stopping id args.now) }
{
    let mut nodes = Vec::with_capacity(alloc, 1)?;
    nodes.push(zero(alloc, id))?;
    let results = stopped_results(alloc, id, args.len())?;
    Ok(Region {
        args: Vec::from_slice(alloc, args)?,
        nodes,
        results,
    })
}

fn zero(alloc: Global, id: u32) -> Node
    ensures { result ≡ node id (Const 0) [] no_regions }
{
    Node {
        id,
        op: Op::Const(0),
        inputs: SmallVec::new(alloc),
        regions: Vec::new(alloc),
    }
}

// The word 0, and so many arguments.
fn stopped_results(alloc: Global, id: u32, count: usize) -> Result<Vec<Origin>, NoMemory>
    requires { count < 2 ^ 32 }
    ensures { IfOk result (λ results. results.items ≡ Out id 0 ∷ origins_from Arg 0 count) }
{
    let mut results = Vec::new(alloc);
    results.push(Origin::Out { node: id, port: 0 })?;
    results.extend_from_slice(&arguments(alloc, count)?)?;
    Ok(results)
}
