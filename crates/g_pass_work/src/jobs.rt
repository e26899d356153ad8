//! The lambdas of a list as jobs.

ghost use Rattle.std.specs.Prelude.{◌≡◌, ◌<◌, ◌^◌, ℕ, Some, length, slice_get};
ghost use Rattle.g_graph.specs.Plain.{PlainLambda};
ghost use Rattle.g_graph.specs.Program.{lambda_values};
ghost use Rattle.g_graph.specs.WellFormed.{IsWellFormed};

use base::NoMemory;
use board_core::Work;
use g_graph::{Lambda, copy_of};
use g_pass::{Recipe, optimise};
use r_rule::Optimised;
use std::alloc::Global;
use std::marker::Model;
use std::sync::Arc;

/// The lambdas of a list as jobs, by their numbers. The result of a job is what the recipe makes of
/// its lambda, given what the functions that it depends on were made into. Contracts see the
/// lambdas and the rules of the recipe.
#[derive(Drop)]
pub struct LambdaJobs<'a> {
    lambdas: &'a [Lambda],
    recipe: &'a Recipe,
}

impl<'a> Model for LambdaJobs<'a> {
    ghost use Rattle.std.specs.Prelude.{◌≡◌, ◌<◌, ◌^◌, ℕ, Some, slice_get};
    ghost use Rattle.g_graph.specs.Plain.{PlainLambda};
    ghost use Rattle.g_graph.specs.Program.{lambda_values};
    ghost use Rattle.g_graph.specs.WellFormed.{IsWellFormed};
    ghost use Rattle.g_pass_work.specs.Jobs.{Jobs, coded_jobs};

    ghost Value = { Jobs };

    ghost coded = { coded_jobs };

    ghost view = { λ j. record { lambdas = j.lambdas.now; recipe = j.recipe.now } };

    ghost invariant = { λ j. ((f : ℕ) (l : PlainLambda) → slice_get j.lambdas.now f ≡ Some l
        → IsWellFormed l × (lambda_values l < 2 ^ 32)) };
}

impl<'a> LambdaJobs<'a> {
    /// These lambdas, which are well formed and have fewer than 2^32 values each, and this recipe.
    pub fn new(lambdas: &'a [Lambda], recipe: &'a Recipe) -> LambdaJobs<'a>
        requires well_formed { (f : ℕ) (l : PlainLambda)
            → slice_get lambdas.now f ≡ Some l → IsWellFormed l }
        requires small { (f : ℕ) (l : PlainLambda)
            → slice_get lambdas.now f ≡ Some l → lambda_values l < 2 ^ 32 }
        ensures { result ≡ record { lambdas = lambdas.entry.now; recipe = recipe.entry.now } }
    {
        LambdaJobs { lambdas, recipe }
    }
}

impl<'a> Work for LambdaJobs<'a> {
    ghost use Rattle.std.specs.Prelude.{length};
    ghost use Rattle.g_pass_def.specs.Answers.{made};
    ghost use Rattle.g_pass.specs.Sweep.{rules};

    type Made = Optimised;

    ghost jobs = { λ work. length work.lambdas };

    ghost made = { λ work. made rules work.recipe work.lambdas };

    fn make(
        &self,
        alloc: Global,
        job: u32,
        callees: &[Arc<Optimised>],
    ) -> Result<Optimised, NoMemory> {
        let lambda = copy_of(alloc, &self.lambdas[job as usize])?;
        optimise(alloc, lambda, callees, self.recipe)
    }
}
