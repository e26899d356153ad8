//! The items of the functions of a program.

ghost use Rattle.std.specs.Prelude.{◌≡◌, ℕ, Some, map, slice_get, IfOk};
ghost use Rattle.std.specs.Arc.{arc_value};
ghost use Rattle.g_graph.specs.Plain.{PlainLambda};
ghost use Rattle.rv_layout.specs.Layout.{item_lists};
ghost use Rattle.cc_emit.specs.Image.{function_items, lambdas_of, lines_of, places_of};
ghost use Rattle.cc_emit.specs.Laws.{IsFunction};

use a_place::{frame, place};
use a_share::share;
use base::NoMemory;
use g_graph::Lambda;
use r_rule::Optimised;
use rv_layout::Item;
use s_linear::{CodeForm, Linear, Places};
use s_select::select;
use s_sequence::sequence;
use std::alloc::Global;
use std::sync::Arc;

// The places of the names of a lambda's function, whose linear code this is.
fn places(
    alloc: Global,
    form: CodeForm,
    lambda: &Lambda,
    linear: &Linear,
) -> Result<Places, NoMemory>
    requires function { IsFunction lambda.now }
    requires lines { linear.now ≡ lines_of lambda.now }
    ensures { IfOk result (λ p. p ≡ places_of form lambda.now) }
{
    a_place_keeps::laws::sequenced_have_own_turns();
    let _ = lambda;
    match form {
        CodeForm::Plain => place(alloc, linear),
        CodeForm::Tight => share(alloc, linear),
    }
}

/// The items of a lambda's function in this form. Its linear code is let go. It takes time n log n
/// in the values of the lambda. `NoMemory` only where the allocator has none.
pub fn function_items(alloc: Global, form: CodeForm, lambda: &Lambda) -> Result<Vec<Item>, NoMemory>
    requires { IsFunction lambda.now }
    ensures { IfOk result (λ items. items.items ≡ function_items form lambda.now) }
{
    let linear = sequence(alloc, lambda)?;
    let places = places(alloc, form, lambda, &linear)?;
    let frame = frame(&places, &lambda.objects);
    select(alloc, &linear, &places, &frame, &lambda.objects)
}

/// The items of the function of each lambda in this form, in order. It takes time n log n in the
/// values of each. `NoMemory` only where the allocator has none.
pub fn all_items(
    alloc: Global,
    form: CodeForm,
    answers: &[Arc<Optimised>],
) -> Result<Vec<Vec<Item>>, NoMemory>
    requires { (f : ℕ) (l : PlainLambda)
        → slice_get (lambdas_of (map arc_value answers.now)) f ≡ Some l → IsFunction l }
    ensures { IfOk result (λ all.
        item_lists all.items ≡ map (function_items form) (lambdas_of (map arc_value answers.now))) }
{
    let mut all = Vec::with_capacity(alloc, answers.len())?;
    for answer in answers {
        all.push(function_items(alloc, form, &answer.lambda)?)?;
    }
    Ok(all)
}
