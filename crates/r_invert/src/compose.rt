//! Regions made of others.

ghost use Rattle.std.specs.Prelude.{◌≡◌, ◌≤◌, ◌^◌, ◌++◌, IfOk, OnOk, length};
ghost use Rattle.g_graph.specs.Plain.{regions_of};
ghost use Rattle.r_invert.specs.Compose.{in_sequence, alone};

use base::NoMemory;
use g_graph::{ArgsToInputs, Kind, Node, Op, Region, redirect_region};
use r_edit::{arguments, outputs_of};
use smallvec::SmallVec;
use std::alloc::Global;

/// The one region, and then the other one on its results. It takes time linear in both.
pub fn in_sequence(first: Region, second: Region) -> Result<Region, NoMemory>
    ensures { IfOk result (λ whole. whole ≡ in_sequence first second) }
{
    let mut whole = first;
    let mut part = second;
    redirect_region(
        &mut part,
        &ArgsToInputs {
            inputs: &whole.results,
        },
    );
    let Region {
        args: _,
        nodes,
        results,
    } = part;
    push_nodes(&mut whole.nodes, nodes)?;
    whole.results = results;
    Ok(whole)
}

fn push_nodes(nodes: &mut Vec<Node>, more: Vec<Node>) -> Result<(), NoMemory>
    ensures { OnOk result (nodes.new.items ≡ nodes.old.items ++ more.items) }
{
    for node in more {
        nodes.push(node)?;
    }
    Ok(())
}

/// A region of one node, which takes its arguments and gives so many results.
pub fn alone(
    alloc: Global,
    id: u32,
    op: Op,
    args: &[Kind],
    results: usize,
    regions: Vec<Region>,
) -> Result<Region, NoMemory>
    requires args { length args.now ≤ 2 ^ 32 }
    requires results { results ≤ 2 ^ 32 }
    ensures { IfOk result (λ region. region ≡
        alone id op args.now results (regions_of regions.items)) }
{
    let inputs = SmallVec::from_slice(alloc, &arguments(alloc, args.len())?)?;
    let mut nodes = Vec::with_capacity(alloc, 1)?;
    nodes.push(Node {
        id,
        op,
        inputs,
        regions,
    })?;
    Ok(Region {
        args: Vec::from_slice(alloc, args)?,
        nodes,
        results: outputs_of(alloc, id, results)?,
    })
}
