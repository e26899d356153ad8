//! The stale functions of a list as jobs.

ghost use Rattle.std.specs.Prelude.{◌≡◌, ◌<◌, ◌^◌, ◌↔◌, [], length, map, slice_index, slice_index_or, IsTrue, IfOk};
ghost use Rattle.std.specs.Arc.{arc_value};
ghost use Rattle.call_order.specs.Units.{call_lists, AllKnown};
ghost use Rattle.g_pass_work.specs.Renewal.{functions_of, stale_jobs};
ghost use Rattle.g_pass_work.specs.StaleJobs.{AreJobs};

use crate::{deps_of, jobs_of, merged, ranks_of};
use base::NoMemory;
use board_core::Work;
use g_graph::{Lambda, copy_of};
use g_pass::{Recipe, optimise};
use r_rule::Optimised;
use std::alloc::Global;
use std::marker::Model;
use std::sync::Arc;

/// The stale functions of a list of lambdas as jobs, in order. The result of a job is what the
/// recipe makes of its lambda, given the answers of its deps: of stale ones those that are handed
/// in, of others the kept ones. Contracts see the lambdas, the rules of the recipe, which functions
/// are stale, the deps of all functions, and the kept answers.
#[derive(Drop)]
pub(crate) struct StaleJobs<'a> {
    lambdas: &'a [Lambda],
    recipe: &'a Recipe,
    functions: &'a [u32],
    stale: &'a [bool],
    deps: &'a [Vec<u32>],
    kept: &'a [Arc<Optimised>],
}

impl<'a> Model for StaleJobs<'a> {
    ghost use Rattle.std.specs.Prelude.{map};
    ghost use Rattle.std.specs.Arc.{arc_value};
    ghost use Rattle.call_order.specs.Units.{call_lists};
    ghost use Rattle.g_pass_work.specs.StaleJobs.{Jobs, AreJobs, coded_jobs};

    ghost Value = { Jobs };

    ghost coded = { coded_jobs };

    ghost view = { λ j. record {
      lambdas = j.lambdas.now;
      recipe = j.recipe.now;
      stale = j.stale.now;
      deps = call_lists j.deps.now;
      kept = map arc_value j.kept.now;
    } };

    ghost invariant = { λ j. AreJobs
        j.lambdas.now j.functions.now j.stale.now (call_lists j.deps.now) };
}

impl<'a> StaleJobs<'a> {
    /// These functions, which are the stale ones in order, of these lambdas, which are well formed
    /// and have fewer than 2^32 values each, under this recipe.
    pub(crate) fn new(
        lambdas: &'a [Lambda],
        recipe: &'a Recipe,
        functions: &'a [u32],
        stale: &'a [bool],
        deps: &'a [Vec<u32>],
        kept: &'a [Arc<Optimised>],
    ) -> StaleJobs<'a>
        requires { AreJobs lambdas.now functions.now stale.now (call_lists deps.now) }
        ensures { result ≡ record {
          lambdas = lambdas.entry.now;
          recipe = recipe.entry.now;
          stale = stale.entry.now;
          deps = call_lists deps.entry.now;
          kept = map arc_value kept.entry.now;
        } }
    {
        StaleJobs {
            lambdas,
            recipe,
            functions,
            stale,
            deps,
            kept,
        }
    }

    /// Whether there is no job.
    pub(crate) fn is_done(&self) -> bool
        ensures { IsTrue result ↔ (length (functions_of self.now.stale) ≡ 0) }
    {
        self.functions.len() == 0
    }

    /// The ranks of the jobs, given those of all functions.
    pub(crate) fn ranks(&self, alloc: Global, ranks: &[u32]) -> Result<Vec<u32>, NoMemory>
        requires { length ranks.now ≡ length self.now.stale }
        ensures { IfOk result (λ own.
            own.items ≡ map (slice_index ranks.now) (functions_of self.now.stale)) }
    {
        ranks_of(alloc, ranks, self.functions)
    }

    /// The deps of the jobs: the stale ones of those of their functions, as jobs.
    pub(crate) fn deps(&self, alloc: Global) -> Result<Vec<Vec<u32>>, NoMemory>
        requires few { length self.now.stale < 2 ^ 32 }
        requires known { AllKnown self.now.deps }
        ensures { IfOk result (λ own. call_lists own.items ≡ map
            (λ j. stale_jobs self.now.stale (slice_index_or self.now.deps j []))
            (functions_of self.now.stale)) }
    {
        let jobs = jobs_of(alloc, self.stale)?;
        deps_of(alloc, self.stale, &jobs, self.deps, self.functions)
    }
}

impl<'a> Work for StaleJobs<'a> {
    ghost use Rattle.std.specs.Prelude.{length};
    ghost use Rattle.g_pass.specs.Sweep.{rules};
    ghost use Rattle.g_pass_work.specs.Renewal.{functions_of};
    ghost use Rattle.g_pass_work.specs.StaleJobs.{made_anew};

    type Made = Optimised;

    ghost jobs = { λ work. length (functions_of work.stale) };

    ghost made = { made_anew rules };

    fn make(
        &self,
        alloc: Global,
        job: u32,
        callees: &[Arc<Optimised>],
    ) -> Result<Optimised, NoMemory> {
        let functions = self.functions;
        let all_deps = self.deps;
        let lambdas = self.lambdas;
        let function = functions[job as usize] as usize;
        let deps = all_deps[function].as_slice();
        let answers = merged(alloc, deps, self.stale, self.kept, callees)?;
        let lambda = copy_of(alloc, &lambdas[function])?;
        optimise(alloc, lambda, &answers, self.recipe)
    }
}
