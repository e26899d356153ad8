//! What a function was given of the others.

ghost use Rattle.std.specs.Prelude.{◌≡◌, ◌<◌, ◌++◌, ◌∷◌, [], ℕ, length, map, Contains, IfOk, OnOk};
ghost use Rattle.std.specs.Arc.{arc_value};
ghost use Rattle.call_order.specs.Units.{call_lists};
ghost use Rattle.g_pass_order.specs.Calls.{IsOrder};
ghost use Rattle.g_pass_def.specs.Answers.{lambdas_of};
ghost use Rattle.g_pass_def.specs.Replayed.{lambdas_at};
ghost use Rattle.cc_view_source.specs.Made.{AreCallees};

use base::NoMemory;
use g_graph::Lambda;
use g_pass_order::Order;
use g_pass_order::laws::orders_are_unique;
use r_rule::Optimised;
use std::alloc::Global;
use std::sync::Arc;

// Appends what a function was made into.
fn push_callee(callees: &mut Vec<Arc<Optimised>>, made: &Arc<Optimised>) -> Result<(), NoMemory>
    ensures { OnOk result (map arc_value callees.new.items
        ≡ map arc_value callees.old.items ++ arc_value made.now ∷ []) }
{
    Ok(callees.push(Arc::try_clone(made)?)?)
}

// What functions were made into, by their numbers.
fn answers_at(
    alloc: Global,
    made: &[Arc<Optimised>],
    numbers: &[u32],
) -> Result<Vec<Arc<Optimised>>, NoMemory>
    requires { (d : ℕ) → Contains numbers.now d → d < length made.now }
    ensures { IfOk result (λ callees. lambdas_of (map arc_value callees.items)
        ≡ lambdas_at (lambdas_of (map arc_value made.now)) numbers.now) }
{
    let mut callees = Vec::with_capacity(alloc, numbers.len())?;
    for number in numbers {
        push_callee(&mut callees, &made[*number as usize])?;
    }
    Ok(callees)
}

/// What the function of this number was given as it was made: what those of other units that it
/// calls were made into. The order is that of the lambdas, of which each has its answer.
pub fn callees_at(
    alloc: Global,
    lambdas: &[Lambda],
    answers: &[Arc<Optimised>],
    order: &Order,
    function: usize,
) -> Result<Vec<Arc<Optimised>>, NoMemory>
    requires order { IsOrder lambdas.now order.now.ranks.items (call_lists order.now.deps.items) }
    requires answered { length answers.now ≡ length lambdas.now }
    requires inside { function < length lambdas.now }
    ensures { IfOk result (λ callees. AreCallees lambdas.now (map arc_value answers.now) function
        (lambdas_of (map arc_value callees.items))) }
{
    orders_are_unique();
    answers_at(alloc, answers, &order.deps[function])
}
