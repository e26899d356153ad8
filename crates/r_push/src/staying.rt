//! Nodes that stay in a region, and what nodes leave.

ghost use Rattle.std.specs.Prelude.{◌≡◌, ◌++◌, ◌∷◌, [], map, IfOk, OnOk, length};
ghost use Rattle.g_graph.specs.Plain.{inputs_in, regions_of};
ghost use Rattle.r_push.specs.Edit.{outer};
ghost use Rattle.r_push.specs.Walk.{is_loop, grown_by_one, grown, all_grown, outputs_of_left};
ghost use Rattle.r_walk.specs.Moves.{origin_in};
ghost use Rattle.r_push.specs.Walks.{exit_in, remade};

use crate::exit::Exit;
use crate::leaving::Outside;
use crate::now::{inputs_now, origins_now};
use base::NoMemory;
use g_graph::{Kind, Node, Op, Origin, Region};
use r_walk::Moves;
use smallvec::SmallVec;
use std::alloc::Global;

/// What is outside the regions of a node, which no node has left. It stands on the heap, so that
/// regions in each other take little of the stack.
#[inline(never)]
pub fn entered(alloc: Global, node: &Node, moves: &Moves) -> Result<Box<Outside>, NoMemory>
    ensures inputs { IfOk result (λ made.
        made.value.inputs.items ≡ map (origin_in moves.now []) (outer node.now)) }
    ensures left { IfOk result (λ made. made.value.left.items ≡ []) }
{
    let inputs = origins_now(alloc, outer(node), moves)?;
    Ok(Box::new(
        alloc,
        Outside {
            inputs,
            left: Vec::new(alloc),
        },
    )?)
}

// Where the arguments of the regions of a node come from.
fn outer(node: &Node) -> &[Origin]
    ensures { result.now ≡ outer node.now }
{
    let inputs = node.inputs.as_slice();
    match node.op {
        Op::Gamma => match inputs.split_first() {
            Some((_, entries)) => entries,
            None => inputs,
        },
        _ => inputs,
    }
}

/// A node stays, whose regions are written so: the nodes that left them come before it. `NoMemory`
/// also where 32 bits do not count the arguments of a region.
#[inline(never)]
pub fn write(
    alloc: Global,
    node: &Node,
    moves: &Moves,
    exit: Exit,
    regions: Vec<Region>,
    outside: Box<Outside>,
    written: &mut Vec<Node>,
) -> Result<(), NoMemory>
    ensures { OnOk result (written.new.items ≡ written.old.items ++ outside.value.left.items
        ++ remade node.now
        (map (origin_in moves.now []) (inputs_in node.now) ++ outputs_of_left outside.value.left.items)
        (all_grown (is_loop (exit_in exit)) (length outside.value.left.items) (regions_of regions.items))
        ∷ []) }
{
    let mut outside = outside;
    let reads = inputs_now(alloc, node, moves)?;
    let widened = widened(node, reads, exit, regions, &outside.left)?;
    written.append(&mut outside.left)?;
    written.push(widened)?;
    Ok(())
}

// The node that these left: it takes what they give, and each of its regions has an argument for it.
fn widened(
    node: &Node,
    reads: SmallVec<Origin, 4>,
    exit: Exit,
    regions: Vec<Region>,
    left: &[Node],
) -> Result<Node, NoMemory>
    ensures { IfOk result (λ made. made ≡ remade node.now
        (reads.items ++ outputs_of_left left.now)
        (all_grown (is_loop (exit_in exit)) (length left.now) (regions_of regions.items))) }
{
    let mut inputs = reads;
    add_outputs(&mut inputs, left)?;
    let mut regions = regions;
    grow_all(&mut regions, left.len(), exit.is_loop())?;
    Ok(Node {
        id: node.id,
        op: node.op,
        inputs,
        regions,
    })
}

// What these nodes give comes after the other inputs.
fn add_outputs(inputs: &mut SmallVec<Origin, 4>, nodes: &[Node]) -> Result<(), NoMemory>
    ensures { OnOk result (inputs.new.items ≡ inputs.old.items ++ outputs_of_left nodes.now) }
{
    for node in nodes {
        inputs.push(Origin::Out {
            node: node.id,
            port: 0,
        })?;
    }
    Ok(())
}

// Each region gets so many more arguments, which a loop returns.
fn grow_all(regions: &mut Vec<Region>, more: usize, loops: bool) -> Result<(), NoMemory>
    ensures { OnOk result (regions_of regions.new.items ≡
        all_grown loops more (regions_of regions.old.items)) }
{
    for i in 0..regions.len() {
        grow(&mut regions[i], more, loops)?;
    }
    Ok(())
}

fn grow(region: &mut Region, more: usize, loops: bool) -> Result<(), NoMemory>
    ensures { OnOk result (region.new ≡ grown loops more region.old) }
{
    for _ in 0..more {
        grow_by_one(region, loops)?;
    }
    Ok(())
}

fn grow_by_one(region: &mut Region, loops: bool) -> Result<(), NoMemory>
    ensures { OnOk result (region.new ≡ grown_by_one loops region.old) }
{
    if loops {
        let Ok(last) = u32::try_from(region.args.len()) else {
            return Err(NoMemory);
        };
        region.results.push(Origin::Arg(last))?;
    }
    region.args.push(Kind::Value)?;
    Ok(())
}
