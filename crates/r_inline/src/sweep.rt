//! The sweep.

ghost use Rattle.std.specs.Prelude.{◌≡◌, ◌≤◌, ◌-◌, false, map, IfOk, OnErr};
ghost use Rattle.std.specs.Arc.{arc_value};
ghost use Rattle.std.specs.BTreeMap.{get};
ghost use Rattle.std.specs.Ordering.{nat_cmp};
ghost use Rattle.std.specs.declared.option.Option.TheVariants.{Some};
ghost use Rattle.g_graph.specs.Ids.{region_ids};
ghost use Rattle.g_graph.specs.Plain.{nodes_in, results_of};
ghost use Rattle.g_graph.specs.WellFormed.{IsWellFormed};
ghost use Rattle.r_rule.specs.declared.steps.Rule.TheVariants.{Inline};
ghost use Rattle.r_inline.specs.Callees.{inline_change};
ghost use Rattle.r_inline.specs.AskedAt.{lambdas_in, callee_at, made_at, comes_at};
ghost use Rattle.r_sweep_def.specs.Swept.{swept_by};
ghost use Rattle.r_walk.specs.Asks.{asked_by, made_of};
ghost use Rattle.r_walk.specs.Walks.{HasGained};

use crate::callees::{callee_of, first_of_each};
use crate::inlined_node;
use crate::walk_laws::inline_is_local;
use base::NoMemory;
use g_graph::{Lambda, Op, Origin, Region};
use r_edit::Numbered;
use r_rule::{Optimised, Rule, Step};
use r_walk::laws::walks_are_sweeps;
use r_walk::{New, Said, Uses, WalkRule, Words, becomes_or_stays, walk};
use std::alloc::Global;
use std::collections::BTreeMap;
use std::sync::Arc;

/// What a sweep of inlining makes of a lambda: the rule is tried at each node that the lambda has,
/// in pre-order, with the first of the callees that has the number. The steps that applied are
/// appended to the log. `NoMemory` only where the allocator has none, or where 64 bits do not count
/// the lambda's values; the lambda is then given up, and the log may have more steps. It takes time
/// n log n in the lambda, in the callees and in what comes.
pub fn sweep_fast(
    alloc: Global,
    lambda: Lambda,
    callees: &[Arc<Optimised>],
    log: &mut Vec<Step>,
) -> Result<Lambda, NoMemory>
    requires well_formed { IsWellFormed lambda }
    ensures ok { IfOk result (λ made. record { lambda = made; steps = log.new.items } ≡
        swept_by (inline_change (lambdas_in (map arc_value callees.now))) (region_ids lambda.body)
        (record { lambda = lambda; steps = log.old.items })) }
    ensures kept { IfOk result (λ made. IsWellFormed made) }
    ensures err { OnErr result (HasGained log.old.items log.new.items) }
{
    walks_are_sweeps();
    inline_is_local();
    match first_of_each(alloc, callees) {
        Ok(first) => walk(alloc, lambda, &Inlining { callees, first }, log),
        Err(fault) => {
            drop(lambda);
            Err(fault)
        }
    }
}

// The rule, as a walk asks it, with the index of the first callee of each number.
#[derive(Drop)]
struct Inlining<'a> {
    callees: &'a [Arc<Optimised>],
    first: BTreeMap<u32, usize>,
}

impl WalkRule for Inlining<'_> {
    ghost rule = { λ _. Inline };

    ghost asked = { λ c. asked_by (made_at (λ f.
        callee_at (lambdas_in (map arc_value c.callees.now)) (get nat_cmp c.first f))) };

    ghost looks = { λ _. false };

    fn rule(&self) -> Rule {
        Rule::Inline
    }

    fn looks(&self) -> bool {
        false
    }

    fn ask(
        &self,
        alloc: Global,
        values: u64,
        next: u32,
        _words: &Words,
        _uses: &Uses,
        _id: u32,
        op: Op,
        inputs: &[Origin],
        _regions: &[Region],
    ) -> Result<Said, NoMemory> {
        match callee_of(self.callees, &self.first, op) {
            Some(callee) => {
                let new = asked(alloc, values, next, op, inputs, callee)?;
                Ok(becomes_or_stays(new))
            }
            None => Ok(Said::Stays),
        }
    }
}

// What comes in the place of a node with this op and these inputs, if it calls the callee.
#[inline(never)]
fn asked(
    alloc: Global,
    values: u64,
    next: u32,
    op: Op,
    inputs: &[Origin],
    callee: &Lambda,
) -> Result<Option<New>, NoMemory>
    requires callee { IsWellFormed callee.now }
    ensures { IfOk result (λ new. made_of new ≡ comes_at values next op inputs.now callee.now) }
{
    match inlined_node(alloc, values, next, op, inputs, callee)? {
        Some(copy) => Ok(Some(copied(copy, next))),
        None => Ok(None),
    }
}

// The copy, where its numbers begin at `next`.
fn copied(copy: Numbered, next: u32) -> New
    requires { next ≤ copy.next }
    ensures { made_of (Some result) ≡ Some (record {
      nodes = nodes_in copy.region;
      outputs = results_of copy.region;
      taken = copy.next - next;
    }) }
{
    let Numbered {
        region,
        next: after,
    } = copy;
    New {
        nodes: region.nodes,
        outputs: region.results,
        taken: after - next,
    }
}
