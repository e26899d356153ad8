//! Whether a log certifies an image of a source.

ghost use Rattle.std.specs.Prelude.{◌≡◌, None, IfOk, IfErr};
ghost use Rattle.c_typed.specs.WellTyped.{IsWellTyped};
ghost use Rattle.c_check_def.specs.Limits.{above_limits};
ghost use Rattle.g_build_def.specs.Functions.{omega};
ghost use Rattle.g_build.specs.Passed.{limit_passed};
ghost use Rattle.cc_source.specs.Meaning.{KeepsMeaning};
ghost use Rattle.log_check.specs.Judgement.{Certifies, IsCertified, IsJudgeFault, IsLogFault};

use crate::image::judge_image;
use crate::judge_fault::JudgeFault;
use crate::names::first_other_name;
use crate::read_log;
use base::NoMemory;
use c_typed::Typed;
use cc_source::accepted_of;
use cc_source::meaning_laws::{kept_lists_keep_meaning, programs_can_be_emitted};
use g_build::{BuildFault, build};
use g_graph::Omega;
use s_linear::CodeForm;
use std::alloc::Global;

// The graph of a program that passes no limit.
fn graph_of(alloc: Global, typed: &Typed) -> Result<Omega, NoMemory>
    requires typed { IsWellTyped typed.now }
    requires values { limit_passed typed.now.functions ≡ None }
    ensures { IfOk result (λ o. o ≡ omega typed.now) }
{
    match build(alloc, typed) {
        Ok(omega) => Ok(omega),
        Err(BuildFault::NoMemory) => Err(NoMemory),
        Err(BuildFault::Limit(_)) => unreachable!(),
    }
}

// Judges an image of a program that passes no limit.
fn judge_typed(
    alloc: Global,
    form: CodeForm,
    typed: &Typed,
    log: &[u8],
    image: &[u8],
) -> Result<(), JudgeFault>
    requires typed { IsWellTyped typed.now }
    requires limits { above_limits typed.now ≡ None }
    requires values { limit_passed typed.now.functions ≡ None }
    ensures certified { IfOk result (λ _. IsCertified typed.now form log.now image.now) }
    ensures fault { IfErr result (λ e. IsLogFault e typed.now form log.now image.now) }
{
    programs_can_be_emitted();
    crate::laws::logs_have_few_lines();
    let read = read_log(alloc, log)?;
    match first_other_name(typed, &read.functions) {
        Some(line) => Err(JudgeFault::BadFunction { line }),
        None => {
            let omega = graph_of(alloc, typed)?;
            judge_image(alloc, form, &omega, &read, image)
        }
    }
}

/// Whether a log certifies an image of a source in this form: then the source is accepted, and the image keeps
/// its meaning, whoever wrote log and image. `Source` comes exactly where the source is refused,
/// with its fault, before all others, and each other fault exactly where it is the first: the log
/// is too long, a line breaks its form, a name is not the program's, what the log says of a
/// function is wrong, by rank and within a rank by number, or the image is not the one that the
/// log's steps lead to. `NoMemory` may come in place of any answer.
pub fn judge(
    alloc: Global,
    form: CodeForm,
    source: &[u8],
    log: &[u8],
    image: &[u8],
) -> Result<(), JudgeFault>
    ensures certified { IfOk result (λ _. (c : Certifies source.now form log.now image.now)
        × KeepsMeaning form c.program c.certified.lambdas image.now) }
    ensures fault { IfErr result (λ e. IsJudgeFault e source.now form log.now image.now) }
{
    programs_can_be_emitted();
    kept_lists_keep_meaning();
    g_pass::meaning_laws::rules_are_steps();
    g_pass_def::laws::replayed_keep_lists();
    let typed = accepted_of(alloc, source)?;
    let judged = judge_typed(alloc, form, &typed, log, image);
    drop(typed);
    judged
}
