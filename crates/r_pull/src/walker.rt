//! The walk, from behind.

ghost use Rattle.std.specs.Prelude.{◌≡◌, List, [], IfOk, OnOk};
ghost use Rattle.g_graph.specs.declared.op.Origin.{Origin};
ghost use Rattle.g_graph.specs.Plain.{region, node, no_nodes, no_regions, args_of, nodes_of, results_of, regions_of, id_of, op_of, inputs_in};
ghost use Rattle.r_pull.specs.Walk.{put_where, walk_region, walk_regions, walk_nodes, walk_node, walked};
ghost use Rattle.r_pull.specs.Behind.{behind, nodes_behind, regions_behind, IsWritten};
ghost use Rattle.r_pull.specs.Users.{AreUsers};
ghost use Rattle.r_walk.specs.Asks.{walking};
ghost use Rattle.r_walk.specs.Walks.{HasGained};

use crate::counts::Counts;
use crate::put::put;
use crate::users::Users;
use base::NoMemory;
use g_graph::{Lambda, Node, Origin, Region, values};
use r_rule::Step;
use smallvec::SmallVec;
use std::alloc::Global;

/// What a walk makes of a lambda. The steps that it makes are appended to the log. `NoMemory` only
/// where the allocator has none, or where the lambda has 2^64 - 1 values or more; the log may then
/// have more steps. Beside the steps, each of which is linear in its Gamma, it takes time n log n in
/// the lambda.
pub fn walk(alloc: Global, lambda: Lambda, log: &mut Vec<Step>) -> Result<Lambda, NoMemory>
    ensures ok { IfOk result (λ made. record { lambda = made; steps = log.new.items } ≡
        walked (record { lambda = lambda; steps = log.old.items })) }
    ensures gained { HasGained log.old.items log.new.items }
{
    match walk_body(alloc, &lambda, log) {
        Ok((body, next)) => Ok(with_body(lambda, body, next)),
        Err(fault) => {
            drop(lambda);
            Err(fault)
        }
    }
}

// The lambda with another body and next number.
fn with_body(lambda: Lambda, body: Region, next: u32) -> Lambda
    ensures { result ≡ record lambda { body = body; next = next } }
{
    let mut lambda = lambda;
    lambda.body = body;
    lambda.next = next;
    lambda
}

fn walk_body(alloc: Global, lambda: &Lambda, log: &mut Vec<Step>) -> Result<(Region, u32), NoMemory>
    ensures ok { IfOk result (λ made.
        record { lambda = record lambda.now { body = made.0; next = made.1 }; steps = log.new.items } ≡
        walked (record { lambda = lambda.now; steps = log.old.items })) }
    ensures gained { HasGained log.old.items log.new.items }
{
    let values = values(lambda);
    if values == u64::MAX {
        return Err(NoMemory);
    }
    let mut counts = Counts {
        values,
        next: lambda.next,
    };
    let body = walk_region(alloc, &lambda.body, &mut counts, log)?;
    Ok((body, counts.next))
}

// The nodes of a region that are written, and what uses them.
#[derive(Drop)]
struct Kept {
    users: Users,
    written: Vec<Node>,
}

// What a walk of a region keeps. It stands on the heap, and is made and dropped in functions of its
// own, so that regions in each other take little of the stack.
#[inline(never)]
fn begin(alloc: Global, region: &Region) -> Result<Box<Kept>, NoMemory>
    ensures users { IfOk result (λ kept. AreUsers kept.value.users (results_of region.now) []) }
    ensures written { IfOk result (λ kept. kept.value.written.items ≡ []) }
{
    let written = Vec::with_capacity(alloc, region.nodes.len())?;
    let users = Users::of_results(alloc, &region.results)?;
    Ok(Box::new(alloc, Kept { users, written })?)
}

// The region, where these nodes were written for its own.
#[inline(never)]
fn end(alloc: Global, old: &Region, kept: Box<Kept>) -> Result<Region, NoMemory>
    ensures { IfOk result (λ made. made ≡ region (args_of old.now)
        (nodes_behind kept.value.written.items no_nodes) (results_of old.now)) }
{
    let args = Vec::from_slice(alloc, &old.args)?;
    let results = Vec::from_slice(alloc, &old.results)?;
    let Kept { users, mut written } = Box::into_inner(kept);
    drop(users);
    written.reverse();
    Ok(Region {
        args,
        nodes: written,
        results,
    })
}

// What was kept is dropped.
#[inline(never)]
fn give_up(_kept: Box<Kept>) {}

#[cycle(walk)]
fn walk_region(
    alloc: Global,
    region: &Region,
    counts: &mut Counts,
    log: &mut Vec<Step>,
) -> Result<Region, NoMemory>
    ensures ok { IfOk result (λ made.
        record { region = made; now = walking counts.new.values counts.new.next log.new.items } ≡
        walk_region region.now (walking counts.old.values counts.old.next log.old.items)) }
    ensures gained { HasGained log.old.items log.new.items }
{
    let mut kept = begin(alloc, region)?;
    match walk_nodes(alloc, &region.nodes, &mut kept, counts, log) {
        Ok(()) => end(alloc, region, kept),
        Err(fault) => {
            give_up(kept);
            Err(fault)
        }
    }
}

// The last region is walked first.
#[cycle(walk)]
fn walk_regions(
    alloc: Global,
    regions: &[Region],
    counts: &mut Counts,
    log: &mut Vec<Step>,
) -> Result<Vec<Region>, NoMemory>
    ensures ok { IfOk result (λ made. record {
      regions = regions_of made.items;
      now = walking counts.new.values counts.new.next log.new.items;
    } ≡
        walk_regions (regions_of regions.now)
        (walking counts.old.values counts.old.next log.old.items)) }
    ensures gained { HasGained log.old.items log.new.items }
{
    let mut made = Vec::with_capacity(alloc, regions.len())?;
    for i in (0..regions.len()).rev() {
        made.push(walk_region(alloc, &regions[i], counts, log)?)?;
    }
    in_order(&mut made);
    Ok(made)
}

// Regions, of which the last was written first.
#[inline(never)]
fn in_order(regions: &mut Vec<Region>)
    ensures { regions_of regions.new.items ≡ regions_behind regions.old.items no_regions }
{
    regions.reverse();
}

// The last node is walked first.
#[cycle(walk)]
fn walk_nodes(
    alloc: Global,
    nodes: &[Node],
    kept: &mut Kept,
    counts: &mut Counts,
    log: &mut Vec<Step>,
) -> Result<(), NoMemory>
    ensures ok { OnOk result ((results : List Origin) → AreUsers kept.old.users results [] → kept.old.written.items ≡ [] →
        IsWritten results (walk_nodes (nodes_of nodes.now) results
        (walking counts.old.values counts.old.next log.old.items))
        kept.new.written.items kept.new.users (walking counts.new.values counts.new.next log.new.items)) }
    ensures gained { HasGained log.old.items log.new.items }
{
    for i in (0..nodes.len()).rev() {
        walk_node(alloc, &nodes[i], kept, counts, log)?;
    }
    Ok(())
}

#[cycle(walk)]
fn walk_node(
    alloc: Global,
    node: &Node,
    kept: &mut Kept,
    counts: &mut Counts,
    log: &mut Vec<Step>,
) -> Result<(), NoMemory>
    ensures ok { OnOk result ((results : List Origin) → AreUsers kept.old.users results kept.old.written.items →
        IsWritten results (walk_node node.now results (behind kept.old.written.items
        (walking counts.old.values counts.old.next log.old.items)))
        kept.new.written.items kept.new.users (walking counts.new.values counts.new.next log.new.items)) }
    ensures gained { HasGained log.old.items log.new.items }
{
    let regions = walk_regions(alloc, &node.regions, counts, log)?;
    put_with(alloc, node, regions, kept, counts, log)
}

// The node with these regions moves into one that is written, where it may, or is written.
#[inline(never)]
fn put_with(
    alloc: Global,
    old: &Node,
    regions: Vec<Region>,
    kept: &mut Kept,
    counts: &mut Counts,
    log: &mut Vec<Step>,
) -> Result<(), NoMemory>
    ensures ok { OnOk result ((results : List Origin) → AreUsers kept.old.users results kept.old.written.items →
        IsWritten results (put_where (node (id_of old.now) (op_of old.now) (inputs_in old.now) (regions_of regions.items))
        results (behind kept.old.written.items (walking counts.old.values counts.old.next log.old.items)))
        kept.new.written.items kept.new.users (walking counts.new.values counts.new.next log.new.items)) }
    ensures gained { HasGained log.old.items log.new.items }
{
    let new = with_regions(alloc, old, regions)?;
    put(alloc, new, &mut kept.users, counts, log, &mut kept.written)
}

// The node with these regions.
fn with_regions(alloc: Global, old: &Node, regions: Vec<Region>) -> Result<Node, NoMemory>
    ensures { IfOk result (λ new. new ≡
        node (id_of old.now) (op_of old.now) (inputs_in old.now) (regions_of regions.items)) }
{
    Ok(Node {
        id: old.id,
        op: old.op,
        inputs: SmallVec::from_slice(alloc, old.inputs.as_slice())?,
        regions,
    })
}
