//! The image that a log's steps lead to.

ghost use Rattle.std.specs.Prelude.{◌≡◌, ◌+◌, ◌<◌, ◌^◌, ℕ, List, length, map, IfOk, IfErr};
ghost use Rattle.std.specs.Arc.{arc_value};
ghost use Rattle.g_graph.specs.Lists.{IsComplete};
ghost use Rattle.g_graph.specs.Plain.{PlainLambda};
ghost use Rattle.g_pass_def.specs.Kept.{IsKeptBy};
ghost use Rattle.cc_emit.specs.Image.{file_of_program, lambdas_of, CanEmit};
ghost use Rattle.log_check.specs.Right.{part_at};
ghost use Rattle.log_check.specs.Judgement.{IsImageOf, IsPartFault};

use crate::compare::first_difference;
use crate::judge_fault::JudgeFault;
use crate::{Log, replay};
use base::NoMemory;
use cc_emit::emit;
use g_graph::Omega;
use r_rule::Optimised;
use s_linear::CodeForm;
use std::alloc::Global;
use std::sync::Arc;

// The file of a program with these lambdas.
fn file_with(
    alloc: Global,
    form: CodeForm,
    omega: &Omega,
    made: &[Arc<Optimised>],
) -> Result<Vec<u8>, NoMemory>
    requires { CanEmit omega.now (lambdas_of (map arc_value made.now)) }
    ensures file { IfOk result (λ file.
        file.items ≡ file_of_program form omega.now (lambdas_of (map arc_value made.now))) }
    ensures short { IfOk result (λ file. length file.items < 2 ^ 32) }
{
    cc_emit::image_laws::program_loads();
    let image = emit(alloc, form, made, omega)?;
    elf_file::write(alloc, &image)
}

/// Judges an image of a program in this form by a log, which has the program's functions, and lines of 32 bits.
/// Lists that keep those of the program can be put in an image.
pub fn judge_image(
    alloc: Global,
    form: CodeForm,
    omega: &Omega,
    log: &Log,
    image: &[u8],
) -> Result<(), JudgeFault>
    requires few { length omega.now.lambdas < 2 ^ 32 }
    requires complete { IsComplete omega.now.lambdas }
    requires can { (ks : List PlainLambda) → IsKeptBy omega.now.lambdas ks → CanEmit omega.now ks }
    requires logged { length log.now ≡ length omega.now.lambdas }
    requires short { (j : ℕ) → j < length log.now
        → (part_at log.now j).line + length (part_at log.now j).steps < 2 ^ 32 }
    ensures image { IfOk result (λ _. IsImageOf omega.now form log.now image.now) }
    ensures fault { IfErr result (λ e. IsPartFault e omega.now form log.now image.now) }
{
    g_pass::meaning_laws::rules_are_steps();
    g_pass_def::laws::replayed_keep_lists();
    let made = replay(alloc, &omega.lambdas, log)?;
    let file = file_with(alloc, form, omega, &made)?;
    match first_difference(image, &file) {
        Some(byte) => Err(JudgeFault::OtherImage { byte }),
        None => Ok(()),
    }
}
