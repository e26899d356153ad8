//! The sweep.

ghost use Rattle.std.specs.Prelude.{◌≡◌, ◌<◌, ◌^◌, ℕ, false, IfOk, OnErr};
ghost use Rattle.g_graph.specs.Ids.{region_ids};
ghost use Rattle.g_graph.specs.Plain.{node, nodes_in, nodes_of, regions_of, results_of};
ghost use Rattle.g_graph.specs.WellFormed.{IsWellFormed};
ghost use Rattle.r_rule.specs.declared.steps.Rule.TheVariants.{Invert};
ghost use Rattle.r_edit.specs.Numbering.{node_count};
ghost use Rattle.r_invert.specs.WalkLaws.{invert_change};
ghost use Rattle.r_invert.specs.AskedAt.{made_at};
ghost use Rattle.r_sweep_def.specs.Swept.{swept_by};
ghost use Rattle.g_mean.specs.Copies.{AllClosed};
ghost use Rattle.r_walk.specs.Asks.{asked_by, made_of, AreSoundIn};
ghost use Rattle.r_walk.specs.Walks.{HasGained};

use crate::inverted_node;
use crate::walk_laws::invert_is_local;
use base::NoMemory;
use g_graph::{Lambda, Op, Origin, Region};
use r_edit::numbers_left;
use r_rule::{Rule, Step};
use r_walk::laws::walks_are_sweeps;
use r_walk::{New, Said, Uses, WalkRule, Words, becomes_or_stays, walk};
use std::alloc::Global;

/// What a sweep of inversion makes of a lambda: the rule is tried at each node that the lambda has,
/// in pre-order. The steps that applied are appended to the log. `NoMemory` only where the allocator
/// has none, or where 64 bits do not count the lambda's values; the lambda is then given up, and the
/// log may have more steps. It takes time n log n in the lambda and in what comes.
pub fn sweep_fast(alloc: Global, lambda: Lambda, log: &mut Vec<Step>) -> Result<Lambda, NoMemory>
    requires well_formed { IsWellFormed lambda }
    ensures ok { IfOk result (λ made. record { lambda = made; steps = log.new.items } ≡
        swept_by invert_change (region_ids lambda.body)
        (record { lambda = lambda; steps = log.old.items })) }
    ensures err { OnErr result (HasGained log.old.items log.new.items) }
{
    walks_are_sweeps();
    invert_is_local();
    walk(alloc, lambda, &Inverting, log)
}

// The rule, as a walk asks it.
#[derive(Drop)]
struct Inverting;

impl WalkRule for Inverting {
    ghost rule = { λ _. Invert };

    ghost asked = { λ _. asked_by made_at };

    ghost looks = { λ _. false };

    fn rule(&self) -> Rule {
        Rule::Invert
    }

    fn looks(&self) -> bool {
        false
    }

    fn ask(
        &self,
        alloc: Global,
        values: u64,
        next: u32,
        _words: &Words,
        _uses: &Uses,
        _id: u32,
        op: Op,
        inputs: &[Origin],
        regions: &[Region],
    ) -> Result<Said, NoMemory> {
        let new = inverted(alloc, values, next, op, inputs, regions)?;
        Ok(becomes_or_stays(new))
    }
}

// What comes in the place of a node.
#[tactic(auto, using(crate::proofs::AskedAt::sound_so, crate::proofs::AskedAt::made_so, crate::proofs::AskedAt::none_so))]
#[inline(never)]
fn inverted(
    alloc: Global,
    values: u64,
    next: u32,
    op: Op,
    inputs: &[Origin],
    regions: &[Region],
) -> Result<Option<New>, NoMemory>
    requires closed { AllClosed (regions_of regions.now) }
    requires sound { AreSoundIn op (regions_of regions.now) }
    ensures { IfOk result (λ new. (id : ℕ) →
        made_of new ≡ made_at values next (node id op inputs.now (regions_of regions.now))) }
{
    match inverted_node(alloc, values, next, op, inputs, regions)? {
        Some(part) => Ok(Some(new_of(part))),
        None => Ok(None),
    }
}

// The nodes of the region, and its results for the outputs of the node in whose place they come.
fn new_of(part: Region) -> New
    requires few { node_count part < 2 ^ 32 }
    ensures nodes { nodes_of result.nodes.items ≡ nodes_in part }
    ensures outputs { result.outputs.items ≡ results_of part }
    ensures taken { result.taken ≡ node_count part }
{
    let taken = numbers_of(&part);
    let Region {
        args: _,
        nodes,
        results,
    } = part;
    New {
        nodes,
        outputs: results,
        taken,
    }
}

// How many nodes the region has, at any depth.
fn numbers_of(part: &Region) -> u32
    requires { node_count part.now < 2 ^ 32 }
    ensures { result ≡ node_count part.now }
{
    u32::MAX - numbers_left(part, u64::from(u32::MAX)) as u32
}
