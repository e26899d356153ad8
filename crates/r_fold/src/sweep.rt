//! The sweep.

ghost use Rattle.std.specs.Prelude.{◌≡◌, true, IfOk, OnErr};
ghost use Rattle.r_rule.specs.declared.steps.Rule.TheVariants.{Fold};
ghost use Rattle.g_graph.specs.Ids.{region_ids};
ghost use Rattle.g_graph.specs.WellFormed.{IsWellFormed};
ghost use Rattle.r_sweep_def.specs.Swept.{swept_by};
ghost use Rattle.r_fold.specs.Asked.{fold_asked};
ghost use Rattle.r_fold.specs.WalkLaws.{fold_change};
ghost use Rattle.r_walk.specs.Walks.{HasGained};

use crate::said::{of_choice, of_loop, of_plan};
use crate::walk_laws::fold_is_local;
use crate::walk_plan::plain_plan;
use base::NoMemory;
use g_graph::{Lambda, Op, Origin, Region};
use r_rule::{Rule, Step};
use r_walk::laws::walks_are_sweeps;
use r_walk::{Said, Uses, WalkRule, Words, walk};
use std::alloc::Global;

/// What a sweep of folding makes of a lambda: the rule is tried at each node that the lambda has,
/// in pre-order. The steps that applied are appended to the log. `NoMemory` only where the allocator
/// has none, or where 64 bits do not count the lambda's values; the lambda is then given up, and
/// the log may have more steps. It takes time n log n in the lambda.
pub fn sweep_fast(alloc: Global, lambda: Lambda, log: &mut Vec<Step>) -> Result<Lambda, NoMemory>
    requires well_formed { IsWellFormed lambda }
    ensures ok { IfOk result (λ made. record { lambda = made; steps = log.new.items } ≡
        swept_by fold_change (region_ids lambda.body)
        (record { lambda = lambda; steps = log.old.items })) }
    ensures err { OnErr result (HasGained log.old.items log.new.items) }
{
    walks_are_sweeps();
    fold_is_local();
    walk(alloc, lambda, &Folding, log)
}

// The rule, as a walk asks it.
#[derive(Drop)]
struct Folding;

impl WalkRule for Folding {
    ghost rule = { λ _. Fold };

    ghost asked = { λ _. fold_asked };

    ghost looks = { λ _. true };

    fn rule(&self) -> Rule {
        Rule::Fold
    }

    fn looks(&self) -> bool {
        true
    }

    fn ask(
        &self,
        alloc: Global,
        values: u64,
        next: u32,
        words: &Words,
        uses: &Uses,
        id: u32,
        op: Op,
        inputs: &[Origin],
        regions: &[Region],
    ) -> Result<Said, NoMemory> {
        match op {
            Op::Gamma => of_choice(alloc, words, inputs, regions),
            Op::Theta => of_loop(alloc, inputs, regions),
            _ => {
                let plan = plain_plan(words, op, inputs);
                of_plan(alloc, uses, id, op, inputs, &plan)
            }
        }
    }
}
