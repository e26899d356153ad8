//! The sweep.

ghost use Rattle.std.specs.Prelude.{◌≡◌, [], ◌∷◌, false, IfOk, OnErr};
ghost use Rattle.g_graph.specs.Ids.{region_ids};
ghost use Rattle.g_graph.specs.Plain.{node, regions_of};
ghost use Rattle.g_graph.specs.WellFormed.{IsWellFormed};
ghost use Rattle.r_rule.specs.declared.steps.Rule.TheVariants.{Unroll};
ghost use Rattle.g_mean.specs.Copies.{AllClosed};
ghost use Rattle.r_sweep_def.specs.Swept.{swept_by};
ghost use Rattle.r_unroll.specs.WalkLaws.{unroll_change};
ghost use Rattle.r_unroll.specs.AskedAt.{made_at};
ghost use Rattle.r_walk.specs.Asks.{asked_by, made_of};
ghost use Rattle.r_walk.specs.Walks.{HasGained};

use crate::walk_laws::unroll_is_local;
use crate::{UnrolledNode, unrolled_node};
use base::NoMemory;
use g_graph::{Lambda, Op, Origin, Region};
use r_rule::{Rule, Step};
use r_walk::laws::walks_are_sweeps;
use r_walk::{New, Said, Uses, WalkRule, Words, becomes_or_stays, walk};
use std::alloc::Global;

/// What a sweep of unrolling makes of a lambda: the rule is tried at each node that the lambda has,
/// in pre-order. The steps that applied are appended to the log. `NoMemory` only where the allocator
/// has none, or where 64 bits do not count the lambda's values; the lambda is then given up, and the
/// log may have more steps. It takes time n log n in the lambda and in what comes.
pub fn sweep_fast(alloc: Global, lambda: Lambda, log: &mut Vec<Step>) -> Result<Lambda, NoMemory>
    requires well_formed { IsWellFormed lambda }
    ensures ok { IfOk result (λ made. record { lambda = made; steps = log.new.items } ≡
        swept_by unroll_change (region_ids lambda.body)
        (record { lambda = lambda; steps = log.old.items })) }
    ensures err { OnErr result (HasGained log.old.items log.new.items) }
{
    walks_are_sweeps();
    unroll_is_local();
    walk(alloc, lambda, &Unrolling, log)
}

// The rule, as a walk asks it.
#[derive(Drop)]
struct Unrolling;

impl WalkRule for Unrolling {
    ghost rule = { λ _. Unroll };

    ghost asked = { λ _. asked_by made_at };

    ghost looks = { λ _. false };

    fn rule(&self) -> Rule {
        Rule::Unroll
    }

    fn looks(&self) -> bool {
        false
    }

    fn ask(
        &self,
        alloc: Global,
        values: u64,
        next: u32,
        _words: &Words,
        _uses: &Uses,
        id: u32,
        op: Op,
        inputs: &[Origin],
        regions: &[Region],
    ) -> Result<Said, NoMemory> {
        let new = unrolled(alloc, values, next, id, op, inputs, regions)?;
        Ok(becomes_or_stays(new))
    }
}

// What comes in the place of a node.
#[inline(never)]
fn unrolled(
    alloc: Global,
    values: u64,
    next: u32,
    id: u32,
    op: Op,
    inputs: &[Origin],
    regions: &[Region],
) -> Result<Option<New>, NoMemory>
    requires closed { AllClosed (regions_of regions.now) }
    ensures { IfOk result (λ new.
        made_of new ≡ made_at values next (node id op inputs.now (regions_of regions.now))) }
{
    match unrolled_node(alloc, values, next, id, op, inputs, regions)? {
        Some(made) => Ok(Some(alone(alloc, made)?)),
        None => Ok(None),
    }
}

// That node, which gives the outputs of the one in whose place it comes.
fn alone(alloc: Global, made: UnrolledNode) -> Result<New, NoMemory>
    ensures nodes { IfOk result (λ new. new.nodes.items ≡ made.node ∷ []) }
    ensures outputs { IfOk result (λ new. new.outputs.items ≡ []) }
    ensures taken { IfOk result (λ new. new.taken ≡ made.taken) }
{
    let mut nodes = Vec::with_capacity(alloc, 1)?;
    nodes.push(made.node)?;
    Ok(New {
        nodes,
        outputs: Vec::new(alloc),
        taken: made.taken,
    })
}
