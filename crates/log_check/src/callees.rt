//! What functions are given of others.

ghost use Rattle.std.specs.Prelude.{◌≡◌, ◌<◌, ◌++◌, ◌∷◌, [], ℕ, Some, length, map, slice_get, Contains, IfOk, OnOk};
ghost use Rattle.std.specs.Arc.{arc_value};
ghost use Rattle.g_graph.specs.Plain.{PlainLambda};
ghost use Rattle.g_graph.specs.WellFormed.{IsWellFormed};
ghost use Rattle.g_pass_def.specs.Answers.{lambdas_of};
ghost use Rattle.g_pass_def.specs.Replayed.{lambdas_at};

use base::NoMemory;
use g_graph::{Lambda, copy_of};
use r_rule::{Optimised, StepList};
use std::alloc::Global;
use std::sync::Arc;

// Appends what a function was made into.
fn push_callee(callees: &mut Vec<Arc<Optimised>>, made: &Arc<Optimised>) -> Result<(), NoMemory>
    ensures { OnOk result (map arc_value callees.new.items
        ≡ map arc_value callees.old.items ++ arc_value made.now ∷ []) }
{
    Ok(callees.push(Arc::try_clone(made)?)?)
}

/// What functions were made into, by their numbers.
pub fn callees_of(
    alloc: Global,
    made: &[Arc<Optimised>],
    numbers: &[u32],
) -> Result<Vec<Arc<Optimised>>, NoMemory>
    requires { (d : ℕ) → Contains numbers.now d → d < length made.now }
    ensures { IfOk result (λ callees. lambdas_of (map arc_value callees.items)
        ≡ lambdas_at (lambdas_of (map arc_value made.now)) numbers.now) }
{
    let mut callees = Vec::with_capacity(alloc, numbers.len())?;
    for number in numbers {
        push_callee(&mut callees, &made[*number as usize])?;
    }
    Ok(callees)
}

/// The lambda, with no steps: those that a log has stand in the log.
pub fn without_steps(alloc: Global, lambda: Lambda) -> Result<Arc<Optimised>, NoMemory>
    requires { IsWellFormed lambda }
    ensures { IfOk result (λ made. (arc_value made).lambda ≡ lambda) }
{
    let made = Optimised {
        lambda,
        steps: StepList::from(Vec::new(alloc)),
        before: 0,
    };
    Ok(Arc::new(alloc, made)?)
}

/// The lambdas as they are, each in the place of what will be made of it.
pub fn as_built(alloc: Global, lambdas: &[Lambda]) -> Result<Vec<Arc<Optimised>>, NoMemory>
    requires { (f : ℕ) (l : PlainLambda) → slice_get lambdas.now f ≡ Some l → IsWellFormed l }
    ensures { IfOk result (λ all. length all.items ≡ length lambdas.now) }
{
    let mut all = Vec::with_capacity(alloc, lambdas.len())?;
    for lambda in lambdas {
        let copy = copy_of(alloc, lambda)?;
        all.push(without_steps(alloc, copy)?)?;
    }
    Ok(all)
}
