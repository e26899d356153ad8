//! The tables of a program.

ghost use Rattle.std.specs.Prelude.{◌≡◌, ◌<◌, ◌^◌, ◌++◌, [], List, ℕ, length, map, IfOk, OnOk};
ghost use Rattle.std.specs.Arc.{arc_value};
ghost use Rattle.call_order.specs.Units.{call_lists};
ghost use Rattle.g_graph.specs.Lists.{IsComplete};
ghost use Rattle.g_graph.specs.Plain.{PlainLambda};
ghost use Rattle.g_pass_def.specs.Answers.{lambda_of, AreAnswers};
ghost use Rattle.g_pass_order.specs.Calls.{IsOrder};
ghost use Rattle.g_pass.specs.Sweep.{rules};
ghost use Rattle.g_pass.specs.Counts.{counts_of};
ghost use Rattle.cc_view_source.specs.Made.{IsMadeWith};
ghost use Rattle.cc_view_source.specs.Tables.{AreTables, IsTable};

use crate::text::push_table;
use crate::{Made, callees_at, function_name};
use base::NoMemory;
use g_graph::{Lambda, Omega, copy_of};
use g_pass::{Recipe, SweepCount, sweep_counts};
use g_pass_order::laws::complete_lists_know_calls;
use g_pass_order::{Order, order};
use r_rule::Optimised;
use std::alloc::Global;
use std::sync::Arc;

// What the sweeps do to the function of this number.
fn counts_at(
    alloc: Global,
    lambdas: &[Lambda],
    answers: &[Arc<Optimised>],
    order: &Order,
    recipe: &Recipe,
    function: usize,
) -> Result<Vec<SweepCount>, NoMemory>
    requires complete { IsComplete lambdas.now }
    requires order { IsOrder lambdas.now order.now.ranks.items (call_lists order.now.deps.items) }
    requires are { AreAnswers rules recipe.now lambdas.now (map arc_value answers.now) }
    requires inside { function < length lambdas.now }
    ensures { IfOk result (λ counts. (callees : List PlainLambda)
        × IsMadeWith recipe.now lambdas.now (map arc_value answers.now) function callees
        × (counts.items ≡ counts_of rules callees
        (record { lambda = lambda_of lambdas.now function; steps = [] }) recipe.now)) }
{
    let callees = callees_at(alloc, lambdas, answers, order, function)?;
    let lambda = copy_of(alloc, &lambdas[function])?;
    sweep_counts(alloc, lambda, &callees, recipe)
}

// The table of the function of this number.
fn push_table_at(
    alloc: Global,
    out: &mut Vec<u8>,
    omega: &Omega,
    answers: &[Arc<Optimised>],
    order: &Order,
    recipe: &Recipe,
    function: usize,
) -> Result<(), NoMemory>
    requires complete { IsComplete omega.now.lambdas }
    requires order { IsOrder omega.now.lambdas order.now.ranks.items
        (call_lists order.now.deps.items) }
    requires are { AreAnswers rules recipe.now omega.now.lambdas (map arc_value answers.now) }
    requires inside { function < length omega.now.lambdas }
    ensures { OnOk result ((table : List ℕ)
        × IsTable recipe.now omega.now (map arc_value answers.now) function table
        × (out.new.items ≡ out.old.items ++ table)) }
{
    let counts = counts_at(alloc, &omega.lambdas, answers, order, recipe, function)?;
    push_table(out, function_name(&omega.names, function), &counts)
}

/// What the sweeps of a recipe do to each function of a program, as a text: a table for each
/// function, in source order. `NoMemory` only where the allocator has none. It takes time as the
/// recipe does.
pub fn tables_of(alloc: Global, made: &Made, recipe: &Recipe) -> Result<Vec<u8>, NoMemory>
    requires few { length made.now.omega.lambdas < 2 ^ 32 }
    requires complete { IsComplete made.now.omega.lambdas }
    requires are { AreAnswers rules recipe.now made.now.omega.lambdas
        (map arc_value made.now.answers.items) }
    ensures { IfOk result (λ text. AreTables recipe.now made.now.omega
        (map arc_value made.now.answers.items) (length made.now.omega.lambdas) text.items) }
{
    complete_lists_know_calls();
    let order = order(alloc, &made.omega.lambdas)?;
    let mut out = Vec::new(alloc);
    for function in 0..made.omega.lambdas.len() {
        push_table_at(
            alloc,
            &mut out,
            &made.omega,
            &made.answers,
            &order,
            recipe,
            function,
        )?;
    }
    Ok(out)
}
