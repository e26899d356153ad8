//! The callees by their numbers.

ghost use Rattle.std.specs.Prelude.{◌≡◌, ℕ, map, option_and_then, option_copied, slice_get, IfOk, IfSome};
ghost use Rattle.std.specs.Arc.{arc_value};
ghost use Rattle.std.specs.BTreeMap.{get};
ghost use Rattle.std.specs.List.{AllByRecursion};
ghost use Rattle.std.specs.Ordering.{nat_cmp};
ghost use Rattle.g_graph.specs.WellFormed.{IsWellFormed};
ghost use Rattle.r_inline.specs.Called.{called_by};
ghost use Rattle.r_inline.specs.Callees.{numbered};
ghost use Rattle.r_inline.specs.AskedAt.{lambdas_in, callee_at};

use crate::called_by;
use base::NoMemory;
use g_graph::{Lambda, Op};
use r_rule::Optimised;
use std::alloc::Global;
use std::collections::BTreeMap;
use std::sync::Arc;

/// The index of the first callee that has a number, by that number; and each callee is well formed.
/// It takes time n log n in the callees.
pub fn first_of_each(
    alloc: Global,
    callees: &[Arc<Optimised>],
) -> Result<BTreeMap<u32, usize>, NoMemory>
    ensures first { IfOk result (λ first. (f : ℕ) →
        callee_at (lambdas_in (map arc_value callees.now)) (get nat_cmp first f)
        ≡ numbered f (lambdas_in (map arc_value callees.now))) }
    ensures well_formed { IfOk result (λ _.
        AllByRecursion IsWellFormed (lambdas_in (map arc_value callees.now))) }
{
    let mut first = BTreeMap::new(alloc);
    for i in (0..callees.len()).rev() {
        if let Some(callee) = lambda_at(callees, i) {
            first.insert(callee.number, i)?;
        }
    }
    Ok(first)
}

/// The callee that a node with this op calls, where the callees' indexes are these; none where it
/// is no call, or its number is not there.
pub fn callee_of<'a>(
    callees: &'a [Arc<Optimised>],
    first: &BTreeMap<u32, usize>,
    op: Op,
) -> Option<&'a Lambda>
    ensures callee { option_copied result ≡ option_and_then (λ f.
        callee_at (lambdas_in (map arc_value callees.now)) (get nat_cmp first.now f))
        (called_by op) }
    ensures well_formed { IfSome result (λ callee. IsWellFormed callee.now) }
{
    let function = called_by(op)?;
    let at = first.get(&function)?;
    lambda_at(callees, *at)
}

// The callee at an index.
#[tactic(auto, using(crate::proofs::Numbered::lambda_at))]
fn lambda_at(callees: &[Arc<Optimised>], at: usize) -> Option<&Lambda>
    ensures callee { option_copied result
        ≡ slice_get (lambdas_in (map arc_value callees.now)) at }
    ensures well_formed { IfSome result (λ callee. IsWellFormed callee.now) }
{
    let callee = callees.get(at)?;
    Some(&callee.lambda)
}
