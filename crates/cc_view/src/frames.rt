//! The frames of functions.

ghost use Rattle.std.specs.Prelude.{◌≡◌, ℕ, Some, map, slice_get, IfOk};
ghost use Rattle.std.specs.Arc.{arc_value};
ghost use Rattle.g_graph.specs.Plain.{PlainLambda};
ghost use Rattle.s_linear.specs.declared.frame.CodeForm.TheVariants.{Plain};
ghost use Rattle.cc_emit.specs.Image.{frame_of, lambdas_of};
ghost use Rattle.cc_emit.specs.Laws.{IsFunction};
ghost use Rattle.cc_emit.specs.Images.{frames};

use a_place::{frame, place};
use base::NoMemory;
use g_graph::{Lambda, copy_of};
use r_rule::Optimised;
use s_sequence::sequence;
use std::alloc::Global;
use std::sync::Arc;

// The bytes of the frame of a lambda's function.
fn frame_of(alloc: Global, lambda: &Lambda) -> Result<u32, NoMemory>
    requires { IsFunction lambda.now }
    ensures { IfOk result (λ size. size ≡ frame_of Plain lambda.now) }
{
    let linear = sequence(alloc, lambda)?;
    let places = place(alloc, &linear)?;
    Ok(frame(&places, &lambda.objects).size)
}

/// The bytes of the frame of each function.
pub fn frames(alloc: Global, answers: &[Arc<Optimised>]) -> Result<Vec<u32>, NoMemory>
    requires { (f : ℕ) (l : PlainLambda)
        → slice_get (lambdas_of (map arc_value answers.now)) f ≡ Some l → IsFunction l }
    ensures { IfOk result (λ all. all.items ≡ frames Plain (lambdas_of (map arc_value answers.now))) }
{
    let mut all = Vec::with_capacity(alloc, answers.len())?;
    for answer in answers {
        all.push(frame_of(alloc, &answer.lambda)?)?;
    }
    Ok(all)
}

/// The lambdas of the answers.
pub fn lambdas_of(alloc: Global, answers: &[Arc<Optimised>]) -> Result<Vec<Lambda>, NoMemory>
    ensures { IfOk result (λ all. all.items ≡ lambdas_of (map arc_value answers.now)) }
{
    let mut all = Vec::with_capacity(alloc, answers.len())?;
    for answer in answers {
        all.push(copy_of(alloc, &answer.lambda)?)?;
    }
    Ok(all)
}
