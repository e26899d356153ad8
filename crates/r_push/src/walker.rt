//! The walk.

ghost use Rattle.std.specs.Prelude.{◌≡◌, ◌++◌, [], ℕ, IfOk, OnOk, map};
ghost use Rattle.g_graph.specs.declared.op.Origin.TheVariants.{Out};
ghost use Rattle.g_graph.specs.Plain.{region, nodes_of, regions_of, args_of, nodes_in, results_of};
ghost use Rattle.r_push.specs.Walk.{Cursor, walk_region, walk_regions, walk_nodes, walk_node, walked};
ghost use Rattle.r_walk.specs.Around.{AreUses};
ghost use Rattle.r_walk.specs.Moves.{output_in, origin_in};
ghost use Rattle.r_walk.specs.Walks.{HasGained};
ghost use Rattle.r_walk.specs.Walk.{inputs_of_nodes};
ghost use Rattle.r_push.specs.Walks.{exit_in, walking, IsCursor, IsWalked};

use crate::exit::{Exit, exit_of};
use crate::leaving::{Outside, Place, leave, leaves};
use crate::now::origins_now;
use crate::staying::{entered, write};
use base::NoMemory;
use g_graph::{Lambda, Node, Region, values};
use r_rule::Step;
use r_walk::{Moves, Uses, uses_of};
use std::alloc::Global;

/// What a walk makes of a lambda. The steps that it makes are appended to the log. `NoMemory` only
/// where the allocator has none, where the lambda has 2^64 - 1 values or more, or where 32 bits do
/// not count the arguments of a region; the log may then have more steps.
pub fn walk(alloc: Global, lambda: Lambda, log: &mut Vec<Step>) -> Result<Lambda, NoMemory>
    ensures ok { IfOk result (λ made. record { lambda = made; steps = log.new.items } ≡
        walked (record { lambda = lambda; steps = log.old.items })) }
    ensures gained { HasGained log.old.items log.new.items }
{
    match walk_body(alloc, &lambda, log) {
        Ok(body) => Ok(with_body(lambda, body)),
        Err(fault) => {
            drop(lambda);
            Err(fault)
        }
    }
}

// The lambda with another body.
fn with_body(lambda: Lambda, body: Region) -> Lambda
    ensures { result ≡ record lambda { body = body } }
{
    let mut lambda = lambda;
    lambda.body = body;
    lambda
}

fn walk_body(alloc: Global, lambda: &Lambda, log: &mut Vec<Step>) -> Result<Region, NoMemory>
    ensures ok { IfOk result (λ body.
        record { lambda = record lambda.now { body = body }; steps = log.new.items } ≡
        walked (record { lambda = lambda.now; steps = log.old.items })) }
    ensures gained { HasGained log.old.items log.new.items }
{
    let mut values = values(lambda);
    if values == u64::MAX {
        return Err(NoMemory);
    }
    let mut outside = Outside {
        inputs: Vec::new(alloc),
        left: Vec::new(alloc),
    };
    walk_region(
        alloc,
        &lambda.body,
        Exit::Shut,
        &mut values,
        &mut outside,
        log,
    )
}

// What is written for a region with this exit.
#[cycle(walk)]
fn walk_region(
    alloc: Global,
    region: &Region,
    exit: Exit,
    values: &mut u64,
    outside: &mut Outside,
    log: &mut Vec<Step>,
) -> Result<Region, NoMemory>
    ensures ok { IfOk result (λ made.
        record { region = made; now = walking values.new outside.new log.new.items } ≡
        walk_region region.now (exit_in exit) (walking values.old outside.old log.old.items)) }
    ensures gained { HasGained log.old.items log.new.items }
{
    let mut nodes = Vec::with_capacity(alloc, region.nodes.len())?;
    let (mut moves, uses) = begin(alloc, region)?;
    let place = Place {
        exit,
        uses: &uses,
        results: &region.results,
    };
    match walk_nodes(
        alloc,
        &region.nodes,
        &place,
        &mut moves,
        values,
        outside,
        log,
        &mut nodes,
    ) {
        Ok(()) => end(alloc, region, nodes, moves, uses),
        Err(fault) => {
            give_up(moves, uses);
            Err(fault)
        }
    }
}

#[cycle(walk)]
fn walk_regions(
    alloc: Global,
    regions: &[Region],
    exit: Exit,
    values: &mut u64,
    outside: &mut Outside,
    log: &mut Vec<Step>,
) -> Result<Vec<Region>, NoMemory>
    ensures ok { IfOk result (λ made. record {
      regions = regions_of made.items;
      now = walking values.new outside.new log.new.items;
    } ≡
        walk_regions (regions_of regions.now) (exit_in exit)
        (walking values.old outside.old log.old.items)) }
    ensures gained { HasGained log.old.items log.new.items }
{
    let mut made = Vec::with_capacity(alloc, regions.len())?;
    for region in regions {
        made.push(walk_region(alloc, region, exit, values, outside, log)?)?;
    }
    Ok(made)
}

// What is written for nodes of a region comes after those written so far.
#[cycle(walk)]
fn walk_nodes(
    alloc: Global,
    nodes: &[Node],
    place: &Place,
    moves: &mut Moves,
    values: &mut u64,
    outside: &mut Outside,
    log: &mut Vec<Step>,
    written: &mut Vec<Node>,
) -> Result<(), NoMemory>
    ensures ok { OnOk result ((k : Cursor) → IsCursor k place.now moves.old →
        IsWalked (walk_nodes (nodes_of nodes.now) k (walking values.old outside.old log.old.items))
        written.old.items written.new.items moves.new
        (walking values.new outside.new log.new.items)) }
    ensures gained { HasGained log.old.items log.new.items }
{
    for node in nodes {
        walk_node(alloc, node, place, moves, values, outside, log, written)?;
    }
    Ok(())
}

// What is written for the node comes after those written so far.
#[cycle(walk)]
fn walk_node(
    alloc: Global,
    node: &Node,
    place: &Place,
    moves: &mut Moves,
    values: &mut u64,
    outside: &mut Outside,
    log: &mut Vec<Step>,
    written: &mut Vec<Node>,
) -> Result<(), NoMemory>
    ensures ok { OnOk result ((k : Cursor) → IsCursor k place.now moves.old →
        IsWalked (walk_node node.now k (walking values.old outside.old log.old.items))
        written.old.items written.new.items moves.new
        (walking values.new outside.new log.new.items)) }
    ensures gained { HasGained log.old.items log.new.items }
{
    if leaves(node, place, moves, *values, outside) {
        return leave(alloc, node, place, moves, values, outside, log);
    }
    let exit = exit_of(node);
    let mut inner = entered(alloc, node, moves)?;
    match walk_regions(alloc, &node.regions, exit, values, &mut inner, log) {
        Ok(regions) => write(alloc, node, moves, exit, regions, inner, written),
        Err(fault) => {
            give_up_node(inner);
            Err(fault)
        }
    }
}

// What a walk of a region keeps: what its outputs became, and what its nodes and results use. It
// stands on the heap, and is made and dropped in functions of its own, so that regions in each other
// take little of the stack.
#[inline(never)]
fn begin(alloc: Global, region: &Region) -> Result<(Box<Moves>, Box<Uses>), NoMemory>
    ensures moves { IfOk result (λ kept. (n p : ℕ) → output_in kept.0.value n p ≡ Out n p) }
    ensures uses { IfOk result (λ kept.
        AreUses kept.1.value (inputs_of_nodes (nodes_in region.now) ++ results_of region.now)) }
{
    let uses = uses_of(alloc, region)?;
    Ok((Box::new(alloc, Moves::new(alloc))?, Box::new(alloc, uses)?))
}

// The region, where these nodes were written for its own.
#[inline(never)]
fn end(
    alloc: Global,
    old: &Region,
    nodes: Vec<Node>,
    moves: Box<Moves>,
    _uses: Box<Uses>,
) -> Result<Region, NoMemory>
    ensures { IfOk result (λ made. made ≡ region (args_of old.now) (nodes_of nodes.items)
        (map (origin_in moves.value []) (results_of old.now))) }
{
    let args = Vec::from_slice(alloc, &old.args)?;
    let results = origins_now(alloc, &old.results, &moves)?;
    Ok(Region {
        args,
        nodes,
        results,
    })
}

// What was kept of a region is dropped.
#[inline(never)]
fn give_up(_moves: Box<Moves>, _uses: Box<Uses>) {}

// What was kept of a node is dropped.
#[inline(never)]
fn give_up_node(_outside: Box<Outside>) {}
