//! The items of functions, where those of an earlier list are kept.

ghost use Rattle.std.specs.Prelude.{◌≡◌, ℕ, true, false, Some, map, slice_get, slice_index_or, IfOk, IfSome};
ghost use Rattle.std.specs.Arc.{arc_value};
ghost use Rattle.g_graph.specs.Plain.{PlainLambda};
ghost use Rattle.rv_layout.specs.Layout.{item_lists};
ghost use Rattle.cc_emit.specs.Image.{function_items, lambdas_of};
ghost use Rattle.cc_emit.specs.Laws.{IsFunction};
ghost use Rattle.cc_session.specs.Items.{items_of, AreItemsKept};

use base::NoMemory;
use cc_emit::function_items;
use g_graph::Lambda;
use r_rule::Optimised;
use rv_layout::Item;
use s_linear::CodeForm;
use std::alloc::Global;
use std::sync::Arc;

// The items that are kept of a function, where it is not stale.
fn kept_items<'a>(stale: &[bool], kept: &'a [Vec<Item>], function: usize) -> Option<&'a [Item]>
    ensures { IfSome result (λ items.
        (slice_index_or stale.now function true ≡ false)
        × (slice_get (item_lists kept.now) function ≡ Some items.now)) }
{
    match stale.get(function) {
        Some(false) => match kept.get(function) {
            Some(items) => Some(items.as_slice()),
            None => None,
        },
        _ => None,
    }
}

// The items of a function: a copy of those that are kept of it, or made of its lambda.
fn items_at(
    alloc: Global,
    form: CodeForm,
    lambda: &Lambda,
    stale: &[bool],
    kept: &[Vec<Item>],
    function: usize,
) -> Result<Vec<Item>, NoMemory>
    requires function { IsFunction lambda.now }
    requires kept { slice_index_or stale.now function true ≡ false
        → slice_get (item_lists kept.now) function ≡ Some (function_items form lambda.now) }
    ensures { IfOk result (λ items. items.items ≡ function_items form lambda.now) }
{
    match kept_items(stale, kept, function) {
        Some(items) => Ok(Vec::from_slice(alloc, items)?),
        None => function_items(alloc, form, lambda),
    }
}

/// The items of each of these functions, in order: those of stale functions are made, of the others
/// they are copies of those that are kept. `NoMemory` only where the allocator has none.
pub(crate) fn items_since(
    alloc: Global,
    form: CodeForm,
    answers: &[Arc<Optimised>],
    stale: &[bool],
    kept: &[Vec<Item>],
) -> Result<Vec<Vec<Item>>, NoMemory>
    requires functions { (f : ℕ) (l : PlainLambda)
        → slice_get (lambdas_of (map arc_value answers.now)) f ≡ Some l → IsFunction l }
    requires kept { AreItemsKept form (map arc_value answers.now) stale.now (item_lists kept.now) }
    ensures { IfOk result (λ all. item_lists all.items ≡ items_of form (map arc_value answers.now)) }
{
    let mut all = Vec::with_capacity(alloc, answers.len())?;
    for function in 0..answers.len() {
        all.push(items_at(
            alloc,
            form,
            &answers[function].lambda,
            stale,
            kept,
            function,
        )?)?;
    }
    Ok(all)
}
