//! What the rule says of a node.

ghost use Rattle.std.specs.Prelude.{◌≡◌, ◌∷◌, [], IfOk};
ghost use Rattle.g_graph.specs.declared.op.Op.TheVariants.{Const};
ghost use Rattle.g_graph.specs.Plain.{NodeTrees, node, no_nodes, node_then, no_regions, regions_of};
ghost use Rattle.r_fold.specs.Said.{plan_said, opened_on, choice_said, loop_said};
ghost use Rattle.r_walk.specs.Around.{AreWords, uses_in};
ghost use Rattle.r_walk.specs.Asks.{said_of};
ghost use Rattle.r_walk.specs.Walk.{becomes, opened};

use crate::{Plan, chosen_place, has_one_turn};
use base::NoMemory;
use g_graph::{Node, Op, Origin, Region};
use r_walk::{New, Opening, Said, Uses, Words};
use smallvec::SmallVec;
use std::alloc::Global;

/// What it says of a node without regions, by its plan.
pub fn of_plan(
    alloc: Global,
    uses: &Uses,
    id: u32,
    op: Op,
    inputs: &[Origin],
    plan: &Option<Plan>,
) -> Result<Said, NoMemory>
    ensures { IfOk result (λ said. said_of said ≡
        plan_said (uses_in uses.now id 0) id op inputs.now plan.now) }
{
    match plan {
        Some(Plan::Word(word)) => constant(alloc, id, *word),
        Some(Plan::Input(origin)) => {
            if uses.is_used(id, 0) {
                with_output(alloc, id, op, inputs, *origin)
            } else {
                Ok(Said::Stays)
            }
        }
        _ => Ok(Said::Stays),
    }
}

/// What it says of a Gamma.
pub fn of_choice(
    alloc: Global,
    words: &Words,
    inputs: &[Origin],
    regions: &[Region],
) -> Result<Said, NoMemory>
    ensures { IfOk result (λ said. (before : NodeTrees) → AreWords words.now before →
        said_of said ≡ choice_said before inputs.now (regions_of regions.now)) }
{
    match inputs.split_first() {
        Some((predicate, entries)) => {
            opened_on(alloc, regions, words.constant(*predicate), entries)
        }
        None => Ok(Said::Stays),
    }
}

// What it says of a Gamma with these entries, whose predicate is this word.
fn opened_on(
    alloc: Global,
    regions: &[Region],
    word: Option<u32>,
    entries: &[Origin],
) -> Result<Said, NoMemory>
    ensures { IfOk result (λ said. said_of said ≡
        opened_on entries.now (regions_of regions.now) word) }
{
    if regions.is_empty() {
        return Ok(Said::Stays);
    }
    match word {
        Some(word) => opened(alloc, chosen_place(regions, word), entries, 0),
        None => Ok(Said::Stays),
    }
}

/// What it says of a Theta.
pub fn of_loop(alloc: Global, inputs: &[Origin], regions: &[Region]) -> Result<Said, NoMemory>
    ensures { IfOk result (λ said. said_of said ≡ loop_said inputs.now (regions_of regions.now)) }
{
    if has_one_turn(regions) {
        opened(alloc, 0, inputs, 1)
    } else {
        Ok(Said::Stays)
    }
}

// The nodes of a region come.
fn opened(alloc: Global, which: usize, inputs: &[Origin], from: usize) -> Result<Said, NoMemory>
    ensures { IfOk result (λ said. said_of said ≡ opened which inputs.now from) }
{
    let inputs = Vec::from_slice(alloc, inputs)?;
    Ok(Said::Opened(Opening {
        which,
        inputs,
        from,
    }))
}

// A constant comes.
fn constant(alloc: Global, id: u32, word: u32) -> Result<Said, NoMemory>
    ensures { IfOk result (λ said. said_of said ≡
        becomes (node_then (node id (Const word) [] no_regions) no_nodes) [] 0) }
{
    let node = Node {
        id,
        op: Op::Const(word),
        inputs: SmallVec::new(alloc),
        regions: Vec::new(alloc),
    };
    comes(alloc, node, Vec::new(alloc))
}

// The node without regions stays, and uses of its output become this origin.
fn with_output(
    alloc: Global,
    id: u32,
    op: Op,
    inputs: &[Origin],
    origin: Origin,
) -> Result<Said, NoMemory>
    ensures { IfOk result (λ said. said_of said ≡
        becomes (node_then (node id op inputs.now no_regions) no_nodes) (origin ∷ []) 0) }
{
    let mut outputs = Vec::with_capacity(alloc, 1)?;
    outputs.push(origin)?;
    let node = Node {
        id,
        op,
        inputs: SmallVec::from_slice(alloc, inputs)?,
        regions: Vec::new(alloc),
    };
    comes(alloc, node, outputs)
}

// The node comes, and uses of its outputs become these origins.
fn comes(alloc: Global, node: Node, outputs: Vec<Origin>) -> Result<Said, NoMemory>
    ensures { IfOk result (λ said. said_of said ≡
        becomes (node_then node no_nodes) outputs.items 0) }
{
    let mut nodes = Vec::with_capacity(alloc, 1)?;
    nodes.push(node)?;
    Ok(Said::Becomes(New {
        nodes,
        outputs,
        taken: 0,
    }))
}
