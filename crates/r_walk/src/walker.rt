//! The walk.

ghost use Rattle.std.specs.Prelude.{◌≡◌, ◌∷◌, ◌++◌, [], ℕ, List, IfOk, OnOk, true, map, drop};
ghost use Rattle.g_graph.specs.declared.op.Origin.{Origin};
ghost use Rattle.g_graph.specs.declared.op.Origin.TheVariants.{Out};
ghost use Rattle.g_graph.specs.Plain.{region, NodeTrees, args_of, nodes_of, regions_of, nodes_in, regions_in, op_of, id_of, inputs_in, results_of, node_then, no_nodes};
ghost use Rattle.g_graph.specs.Count.{node_values};
ghost use Rattle.g_graph.specs.Splice.{joined_nodes};
ghost use Rattle.g_graph.specs.WellFormed.{IsWellFormed};
ghost use Rattle.g_mean.specs.Copies.{IsClosed, AllClosed};
ghost use Rattle.r_rule.specs.declared.steps.Step.{Step};
ghost use Rattle.r_walk.specs.Walk.{Cursor, inputs_of_nodes, results_used, walk_region, walk_regions, walk_nodes, walk_node, open_at, walked};
ghost use Rattle.r_walk.specs.Around.{AreWords, AreUses};
ghost use Rattle.r_walk.specs.Asks.{walking, IsSound, AreSoundIn, AllSound, AreSoundNodes, AreInnerClosed};
ghost use Rattle.r_walk.specs.Moves.{output_in, origin_in};
ghost use Rattle.r_walk.specs.Walks.{IsCursor, IsWalked, HasGained, HasStepped};

use crate::counts::{Counts, node_values, nodes_values};
use crate::moves::{Moves, Now};
use crate::uses::{Uses, from_on, uses_of, uses_of_opened};
use crate::words::Words;
use crate::{New, Opening, Said, WalkRule};
use base::NoMemory;
use g_graph::{Lambda, Node, Origin, Region, redirect_origins, values};
use r_rule::Step;
use smallvec::SmallVec;
use std::alloc::Global;

/// What a walk of a rule makes of a lambda. The steps that it makes are appended to the log.
/// `NoMemory` only where the allocator has none, where the lambda has 2^64 - 1 values or more, or
/// where its numbers end; the log may then have more steps. Beside what the rule takes it takes time
/// linear in the lambda and in what comes.
pub fn walk<R: WalkRule>(
    alloc: Global,
    lambda: Lambda,
    by: &R,
    log: &mut Vec<Step>,
) -> Result<Lambda, NoMemory>
    requires { IsWellFormed lambda }
    ensures ok { IfOk result (λ made. record { lambda = made; steps = log.new.items } ≡
        walked (R.rule by.now) (R.asked by.now)
        (record { lambda = lambda; steps = log.old.items })) }
    ensures gained { HasGained log.old.items log.new.items }
{
    match walk_body(alloc, &lambda, by, log) {
        Ok((body, next)) => Ok(with_body(lambda, body, next)),
        Err(fault) => {
            drop(lambda);
            Err(fault)
        }
    }
}

// The lambda with another body and next number.
fn with_body(lambda: Lambda, body: Region, next: u32) -> Lambda
    ensures { result ≡ record lambda { body = body; next = next } }
{
    let mut lambda = lambda;
    lambda.body = body;
    lambda.next = next;
    lambda
}

fn walk_body<R: WalkRule>(
    alloc: Global,
    lambda: &Lambda,
    by: &R,
    log: &mut Vec<Step>,
) -> Result<(Region, u32), NoMemory>
    requires { IsWellFormed lambda.now }
    ensures ok { IfOk result (λ made.
        record { lambda = record lambda.now { body = made.0; next = made.1 }; steps = log.new.items } ≡
        walked (R.rule by.now) (R.asked by.now)
        (record { lambda = lambda.now; steps = log.old.items })) }
    ensures gained { HasGained log.old.items log.new.items }
{
    let values = values(lambda);
    if values == u64::MAX {
        return Err(NoMemory);
    }
    let mut counts = Counts {
        values,
        next: lambda.next,
    };
    let body = walk_region(alloc, &lambda.body, by, &mut counts, log)?;
    Ok((body, counts.next))
}

// What became of outputs in a region, and the words of the constants that were written there.
#[derive(Drop)]
struct Tables {
    moves: Moves,
    words: Words,
}

// What a walk of a region keeps. It stands on the heap, and is made and dropped in functions of its
// own, so that regions in each other take little of the stack.
#[inline(never)]
fn begin<R: WalkRule>(
    alloc: Global,
    region: &Region,
    by: &R,
) -> Result<(Box<Tables>, Box<Uses>), NoMemory>
    ensures moves { IfOk result (λ kept. (n p : ℕ) → output_in kept.0.value.moves n p ≡ Out n p) }
    ensures words { IfOk result (λ kept. AreWords kept.0.value.words no_nodes) }
    ensures uses { IfOk result (λ kept. R.looks by.now ≡ true →
        AreUses kept.1.value (inputs_of_nodes (nodes_in region.now) ++ results_of region.now)) }
{
    let uses = used_in(alloc, region, by)?;
    let tables = Tables {
        moves: Moves::new(alloc),
        words: Words::new(alloc),
    };
    Ok((Box::new(alloc, tables)?, Box::new(alloc, uses)?))
}

// The region, where these nodes were written for its own.
#[inline(never)]
fn end(
    alloc: Global,
    old: &Region,
    nodes: Vec<Node>,
    tables: Box<Tables>,
    _uses: Box<Uses>,
) -> Result<Region, NoMemory>
    ensures { IfOk result (λ made. made ≡ region (args_of old.now) (nodes_of nodes.items)
        (map (origin_in tables.value.moves []) (results_of old.now))) }
{
    let args = Vec::from_slice(alloc, &old.args)?;
    let results = origins_now(alloc, &old.results, &[], &tables.moves)?;
    Ok(Region {
        args,
        nodes,
        results,
    })
}

// What was kept is dropped.
#[inline(never)]
fn give_up(_tables: Box<Tables>, _uses: Box<Uses>) {}

#[cycle(walk)]
fn walk_region<R: WalkRule>(
    alloc: Global,
    region: &Region,
    by: &R,
    counts: &mut Counts,
    log: &mut Vec<Step>,
) -> Result<Region, NoMemory>
    requires closed { IsClosed region.now }
    requires sound { IsSound region.now }
    ensures ok { IfOk result (λ made.
        record { region = made; now = walking counts.new.values counts.new.next log.new.items } ≡
        walk_region (R.rule by.now) (R.asked by.now) region.now
        (walking counts.old.values counts.old.next log.old.items)) }
    ensures gained { HasGained log.old.items log.new.items }
{
    let mut nodes = Vec::with_capacity(alloc, region.nodes.len())?;
    let (mut tables, uses) = begin(alloc, region, by)?;
    match walk_nodes(
        alloc,
        &region.nodes,
        &[],
        &uses,
        by,
        &mut tables,
        counts,
        log,
        &mut nodes,
    ) {
        Ok(()) => end(alloc, region, nodes, tables, uses),
        Err(fault) => {
            give_up(tables, uses);
            Err(fault)
        }
    }
}

#[cycle(walk)]
fn walk_regions<R: WalkRule>(
    alloc: Global,
    regions: &[Region],
    by: &R,
    counts: &mut Counts,
    log: &mut Vec<Step>,
) -> Result<Vec<Region>, NoMemory>
    requires closed { AllClosed (regions_of regions.now) }
    requires sound { AllSound (regions_of regions.now) }
    ensures ok { IfOk result (λ made. record {
      regions = regions_of made.items;
      now = walking counts.new.values counts.new.next log.new.items;
    } ≡
        walk_regions (R.rule by.now) (R.asked by.now) (regions_of regions.now)
        (walking counts.old.values counts.old.next log.old.items)) }
    ensures gained { HasGained log.old.items log.new.items }
{
    let mut made = Vec::with_capacity(alloc, regions.len())?;
    for region in regions {
        made.push(walk_region(alloc, region, by, counts, log)?)?;
    }
    Ok(made)
}

// What is written for nodes of a region, whose arguments became these inputs, comes after those
// written so far.
#[cycle(walk)]
fn walk_nodes<R: WalkRule>(
    alloc: Global,
    nodes: &[Node],
    inputs: &[Origin],
    uses: &Uses,
    by: &R,
    tables: &mut Tables,
    counts: &mut Counts,
    log: &mut Vec<Step>,
    written: &mut Vec<Node>,
) -> Result<(), NoMemory>
    requires closed { AreInnerClosed (nodes_of nodes.now) }
    requires sound { AreSoundNodes (nodes_of nodes.now) }
    ensures ok { OnOk result ((k : Cursor) →
        IsCursor (R.looks by.now) k inputs.now tables.old.moves tables.old.words uses.now →
        IsWalked (R.looks by.now) k (walk_nodes (R.rule by.now) (R.asked by.now) (nodes_of nodes.now) k
        (walking counts.old.values counts.old.next log.old.items))
        written.old.items written.new.items tables.new.moves tables.new.words
        (walking counts.new.values counts.new.next log.new.items)) }
    ensures gained { HasGained log.old.items log.new.items }
{
    for node in nodes {
        walk_node(alloc, node, inputs, uses, by, tables, counts, log, written)?;
    }
    Ok(())
}

// What is written for the node comes after those written so far.
#[cycle(walk)]
fn walk_node<R: WalkRule>(
    alloc: Global,
    node: &Node,
    inputs: &[Origin],
    uses: &Uses,
    by: &R,
    tables: &mut Tables,
    counts: &mut Counts,
    log: &mut Vec<Step>,
    written: &mut Vec<Node>,
) -> Result<(), NoMemory>
    requires closed { AllClosed (regions_in node.now) }
    requires sound { AreSoundIn (op_of node.now) (regions_in node.now) }
    requires inner { AllSound (regions_in node.now) }
    ensures ok { OnOk result ((k : Cursor) →
        IsCursor (R.looks by.now) k inputs.now tables.old.moves tables.old.words uses.now →
        IsWalked (R.looks by.now) k (walk_node (R.rule by.now) (R.asked by.now) node.now k
        (walking counts.old.values counts.old.next log.old.items))
        written.old.items written.new.items tables.new.moves tables.new.words
        (walking counts.new.values counts.new.next log.new.items)) }
    ensures gained { HasGained log.old.items log.new.items }
{
    let reads = inputs_now(alloc, node, inputs, &tables.moves)?;
    let said = by.ask(
        alloc,
        counts.values,
        counts.next,
        &tables.words,
        uses,
        node.id,
        node.op,
        reads.as_slice(),
        &node.regions,
    )?;
    match said {
        Said::Becomes(new) => step(node, by, new, tables, counts, log, written),
        Said::Opened(opening) => open(alloc, node, opening, uses, by, tables, counts, log, written),
        Said::Stays => {
            let regions = walk_regions(alloc, &node.regions, by, counts, log)?;
            write(
                by,
                Node {
                    id: node.id,
                    op: node.op,
                    inputs: reads,
                    regions,
                },
                tables,
                written,
            )
        }
    }
}

// A step: the nodes of a region of the node come in its place, and are walked.
#[cycle(walk)]
#[inline(never)]
fn open<R: WalkRule>(
    alloc: Global,
    node: &Node,
    opening: Opening,
    uses: &Uses,
    by: &R,
    tables: &mut Tables,
    counts: &mut Counts,
    log: &mut Vec<Step>,
    written: &mut Vec<Node>,
) -> Result<(), NoMemory>
    requires closed { AllClosed (regions_in node.now) }
    requires inner { AllSound (regions_in node.now) }
    ensures ok { OnOk result ((k : Cursor) (inputs : List Origin) →
        IsCursor (R.looks by.now) k inputs tables.old.moves tables.old.words uses.now →
        IsWalked (R.looks by.now) k (open_at (R.rule by.now) (R.asked by.now) (regions_in node.now) (id_of node.now)
        (node_values node.now) opening.which opening.inputs.items opening.from k
        (walking counts.old.values counts.old.next log.old.items))
        written.old.items written.new.items tables.new.moves tables.new.words
        (walking counts.new.values counts.new.next log.new.items)) }
    ensures gained { HasGained log.old.items log.new.items }
{
    let Some(region) = node.regions.get(opening.which) else {
        return Ok(());
    };
    let old = node_values(node.op, &node.regions);
    counts.step(old, nodes_values(&region.nodes), 0)?;
    log.push(Step {
        rule: by.rule(),
        node: node.id,
    })?;
    let inner = used_in_opened(alloc, region, node.id, opening.from, uses, by)?;
    walk_nodes(
        alloc,
        &region.nodes,
        &opening.inputs,
        &inner,
        by,
        tables,
        counts,
        log,
        written,
    )?;
    let gives = from_on(&region.results, opening.from);
    let outputs = origins_now(alloc, gives, &opening.inputs, &tables.moves)?;
    tables.moves.note(node.id, outputs)
}

// What the region uses, where the rule looks at it.
fn used_in<R: WalkRule>(alloc: Global, region: &Region, by: &R) -> Result<Uses, NoMemory>
    ensures { IfOk result (λ uses. R.looks by.now ≡ true →
        AreUses uses (inputs_of_nodes (nodes_in region.now) ++ results_of region.now)) }
{
    if by.looks() {
        uses_of(alloc, region)
    } else {
        Ok(Uses::new(alloc))
    }
}

// What a region uses that comes in the place of a node, where the rule looks at it.
#[inline(never)]
fn used_in_opened<R: WalkRule>(
    alloc: Global,
    region: &Region,
    node: u32,
    from: usize,
    outer: &Uses,
    by: &R,
) -> Result<Box<Uses>, NoMemory>
    ensures { IfOk result (λ uses. R.looks by.now ≡ true → (os : List Origin) → AreUses outer.now os →
        AreUses uses.value (inputs_of_nodes (nodes_in region.now) ++ results_used os node 0 (drop from (results_of region.now)))) }
{
    let uses = if by.looks() {
        uses_of_opened(alloc, region, node, from, outer)?
    } else {
        Uses::new(alloc)
    };
    Ok(Box::new(alloc, uses)?)
}

// The node's inputs as they are now.
fn inputs_now(
    alloc: Global,
    node: &Node,
    inputs: &[Origin],
    moves: &Moves,
) -> Result<SmallVec<Origin, 4>, NoMemory>
    ensures { IfOk result (λ reads. reads.items ≡ map (origin_in moves.now inputs.now) (inputs_in node.now)) }
{
    let mut reads = SmallVec::from_slice(alloc, node.inputs.as_slice())?;
    redirect_origins(reads.as_mut_slice(), &Now { moves, inputs });
    Ok(reads)
}

// Origins as they are now.
fn origins_now(
    alloc: Global,
    origins: &[Origin],
    inputs: &[Origin],
    moves: &Moves,
) -> Result<Vec<Origin>, NoMemory>
    ensures { IfOk result (λ now. now.items ≡ map (origin_in moves.now inputs.now) origins.now) }
{
    let mut now = Vec::from_slice(alloc, origins)?;
    redirect_origins(now.as_mut_slice(), &Now { moves, inputs });
    Ok(now)
}

// The node is written.
fn write<R: WalkRule>(
    by: &R,
    node: Node,
    tables: &mut Tables,
    written: &mut Vec<Node>,
) -> Result<(), NoMemory>
    ensures nodes { OnOk result (written.new.items ≡ written.old.items ++ node ∷ []) }
    ensures moves { OnOk result (tables.new.moves ≡ tables.old.moves) }
    ensures words { OnOk result (R.looks by.now ≡ true → (before : NodeTrees) → AreWords tables.old.words before →
        AreWords tables.new.words (joined_nodes before (node_then node no_nodes))) }
{
    if by.looks() {
        tables.words.note(&node)?;
    }
    written.push(node)?;
    Ok(())
}

// The words of nodes that are written, where the rule looks at them.
fn note_words<R: WalkRule>(by: &R, nodes: &[Node], words: &mut Words) -> Result<(), NoMemory>
    ensures { OnOk result (R.looks by.now ≡ true → (before : NodeTrees) → AreWords words.old before →
        AreWords words.new (joined_nodes before (nodes_of nodes.now))) }
{
    if by.looks() {
        words.note_all(nodes)?;
    }
    Ok(())
}

// A step: these come in the place of the node.
#[inline(never)]
fn step<R: WalkRule>(
    node: &Node,
    by: &R,
    new: New,
    tables: &mut Tables,
    counts: &mut Counts,
    log: &mut Vec<Step>,
    written: &mut Vec<Node>,
) -> Result<(), NoMemory>
    ensures ok { OnOk result (HasStepped (R.rule by.now) node.now new
        written.old.items written.new.items tables.old.moves tables.new.moves
        (walking counts.old.values counts.old.next log.old.items)
        (walking counts.new.values counts.new.next log.new.items)) }
    ensures words { OnOk result (R.looks by.now ≡ true → (before : NodeTrees) → AreWords tables.old.words before →
        AreWords tables.new.words (joined_nodes before (nodes_of new.nodes.items))) }
    ensures gained { HasGained log.old.items log.new.items }
{
    let New {
        nodes: mut made,
        outputs,
        taken,
    } = new;
    let old = node_values(node.op, &node.regions);
    counts.step(old, nodes_values(&made), taken)?;
    log.push(Step {
        rule: by.rule(),
        node: node.id,
    })?;
    tables.moves.note(node.id, outputs)?;
    note_words(by, &made, &mut tables.words)?;
    written.append(&mut made)?;
    Ok(())
}
