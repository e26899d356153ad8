//! The graph of one function.

ghost use Rattle.std.specs.Prelude.{◌≡◌, ◌<◌, ◌^◌, [], List, None, Some, length, map, IfNone, IfOk, IfSome};
ghost use Rattle.std.specs.Arc.{arc_value};
ghost use Rattle.g_graph.specs.Lists.{IsComplete};
ghost use Rattle.g_graph.specs.Plain.{PlainLambda};
ghost use Rattle.cc_view_source.specs.Drawn.{function_named, AreAfter, AreOneShown, ArePrograms, HasFewer, IsShown, IsThere};

use crate::showing::{answer_at, push_shown};
use crate::{Drawing, Made, callees_at};
use base::{Name, NoMemory};
use g_graph::Lambda;
use g_pass::replayed;
use g_pass_def::laws::recipes_are_steps;
use g_pass_order::laws::complete_lists_know_calls;
use g_pass_order::order;
use r_rule::Optimised;
use std::alloc::Global;
use std::sync::Arc;

fn function_named(names: &[Name], name: &[u8]) -> Option<usize>
    ensures { result ≡ function_named name.now names.now }
{
    names.iter().position(|other| other.as_slice() == name)
}

// The lambda of a function after so many of its steps; `None` where it has fewer.
fn lambda_after(
    alloc: Global,
    lambdas: &[Lambda],
    answers: &[Arc<Optimised>],
    function: usize,
    count: usize,
) -> Result<Option<Lambda>, NoMemory>
    requires few { length lambdas.now < 2 ^ 32 }
    requires complete { IsComplete lambdas.now }
    requires are { ArePrograms lambdas.now (map arc_value answers.now) }
    requires inside { function < length answers.now }
    ensures some { IfOk result (λ o. IfSome o (λ l.
        AreAfter lambdas.now (map arc_value answers.now) function (Some count) l)) }
    ensures none { IfOk result (λ o. IfNone o
        (HasFewer (map arc_value answers.now) function count)) }
{
    complete_lists_know_calls();
    recipes_are_steps();
    let answer = answer_at(answers, function);
    let steps = answer.steps.as_slice();
    if count > steps.len() {
        return Ok(None);
    }
    let order = order(alloc, lambdas)?;
    let callees = callees_at(alloc, lambdas, answers, &order, function)?;
    replayed(alloc, &lambdas[function], &callees, &steps[..count])
}

// The node of the next step after so many, where there is one.
fn next_node(answers: &[Arc<Optimised>], function: usize, count: usize) -> Option<u32>
    requires { function < length answers.now }
{
    match answers[function].steps.as_slice().get(count) {
        Some(step) => Some(step.node),
        None => None,
    }
}

// The drawing of one lambda, by itself.
fn drawn(
    alloc: Global,
    drawing: Drawing,
    name: &[u8],
    names: &[Name],
    lambda: &Lambda,
    framed: Option<u32>,
) -> Result<Vec<u8>, NoMemory>
    ensures { IfOk result (λ text. IsShown drawing name.now lambda.now [] text.items) }
{
    let mut out = Vec::new(alloc);
    push_shown(alloc, &mut out, drawing, name, names, lambda, framed)?;
    Ok(out)
}

// The drawing of a function after so many of its steps; `None` where it has fewer.
fn drawn_after(
    alloc: Global,
    lambdas: &[Lambda],
    names: &[Name],
    answers: &[Arc<Optimised>],
    name: &[u8],
    function: usize,
    count: usize,
    drawing: Drawing,
) -> Result<Option<Vec<u8>>, NoMemory>
    requires few { length lambdas.now < 2 ^ 32 }
    requires complete { IsComplete lambdas.now }
    requires are { ArePrograms lambdas.now (map arc_value answers.now) }
    requires inside { function < length answers.now }
    ensures some { IfOk result (λ o. IfSome o (λ text. (l : PlainLambda)
        × AreAfter lambdas.now (map arc_value answers.now) function (Some count) l
        × IsShown drawing name.now l [] text.items)) }
    ensures none { IfOk result (λ o. IfNone o
        (HasFewer (map arc_value answers.now) function count)) }
{
    let Some(lambda) = lambda_after(alloc, lambdas, answers, function, count)? else {
        return Ok(None);
    };
    let framed = next_node(answers, function, count);
    let drawn = drawn(alloc, drawing, name, names, &lambda, framed);
    drop(lambda);
    Ok(Some(drawn?))
}

// The drawing of a function as the recipe made it.
fn drawn_whole(
    alloc: Global,
    names: &[Name],
    answers: &[Arc<Optimised>],
    name: &[u8],
    function: usize,
    drawing: Drawing,
) -> Result<Vec<u8>, NoMemory>
    requires { function < length answers.now }
    ensures { IfOk result (λ text. (l : PlainLambda) × ((lambdas : List PlainLambda)
        → AreAfter lambdas (map arc_value answers.now) function None l)
        × IsShown drawing name.now l [] text.items) }
{
    let answer = answer_at(answers, function);
    drawn(alloc, drawing, name, names, &answer.lambda, None)
}

// The graph of the first function of this name; `None` where there is none or it has fewer steps.
fn graph_named(
    alloc: Global,
    lambdas: &[Lambda],
    names: &[Name],
    answers: &[Arc<Optimised>],
    name: &[u8],
    after: Option<u32>,
    drawing: Drawing,
) -> Result<Option<Vec<u8>>, NoMemory>
    requires few { length lambdas.now < 2 ^ 32 }
    requires complete { IsComplete lambdas.now }
    requires are { ArePrograms lambdas.now (map arc_value answers.now) }
    ensures some { IfOk result (λ o. IfSome o (λ text. AreOneShown lambdas.now names.now
        (map arc_value answers.now) name.now after drawing text.items)) }
    ensures none { IfOk result (λ o. IfNone o
        (IsThere names.now (map arc_value answers.now) name.now after → ⊥)) }
{
    let Some(function) = function_named(names, name) else {
        return Ok(None);
    };
    if function >= answers.len() {
        return Ok(None);
    }
    match after {
        Some(count) => drawn_after(
            alloc,
            lambdas,
            names,
            answers,
            name,
            function,
            count as usize,
            drawing,
        ),
        None => {
            let text = drawn_whole(alloc, names, answers, name, function, drawing)?;
            Ok(Some(text))
        }
    }
}

/// The graph of the function of this name, as a recipe made it, or after its first steps where
/// their number is given; then DOT has the node of the next step in a frame. `None` where there is
/// no such function, or it has fewer steps. `NoMemory` only where the allocator has none.
pub fn graph_of_one(
    alloc: Global,
    made: &Made,
    name: &[u8],
    after: Option<u32>,
    drawing: Drawing,
) -> Result<Option<Vec<u8>>, NoMemory>
    requires few { length made.now.omega.lambdas < 2 ^ 32 }
    requires complete { IsComplete made.now.omega.lambdas }
    requires are { ArePrograms made.now.omega.lambdas (map arc_value made.now.answers.items) }
    ensures some { IfOk result (λ o. IfSome o (λ text. AreOneShown made.now.omega.lambdas
        made.now.omega.names (map arc_value made.now.answers.items) name.now after drawing
        text.items)) }
    ensures none { IfOk result (λ o. IfNone o (IsThere made.now.omega.names
        (map arc_value made.now.answers.items) name.now after → ⊥)) }
{
    let omega = &made.omega;
    graph_named(
        alloc,
        &omega.lambdas,
        &omega.names,
        &made.answers,
        name,
        after,
        drawing,
    )
}
