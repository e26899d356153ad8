//! How many values a loop has, around a body of so many.

ghost use Rattle.std.specs.Prelude.{◌≡◌};
ghost use Rattle.c_typed.specs.StmtViews.{optional_of};
ghost use Rattle.g_graph.specs.Count.{saturated};
ghost use Rattle.g_build_count.specs.Values.{leaving_values, step_values, loop_values, do_values};

use crate::expression::{expr_values, tested_values};
use crate::operations::{choice_values, repeat_values};
use crate::scope::Scope;
use c_typed::TExpr;

/// Of a Gamma on `go` round what follows an item that can leave, without what follows.
pub fn leaving_values(carried: u64, leaves: bool) -> u64
    ensures { result ≡ saturated (leaving_values carried leaves) }
{
    if leaves {
        carried.saturating_mul(5).saturating_add(3)
    } else {
        0
    }
}

// Of the step of a loop whose body can leave or not.
fn step_values(step: &Option<TExpr>, leaves: bool, carried: u64, scope: &Scope) -> u64
    ensures { result ≡
        saturated (step_values carried scope.now.objects leaves (optional_of step.now)) }
{
    match step {
        Some(e) => leaving_values(carried, leaves).saturating_add(expr_values(e, carried, scope)),
        None => 0,
    }
}

/// Of a `while` or `for`.
pub fn loop_values(
    condition: &Option<TExpr>,
    step: &Option<TExpr>,
    leaves: bool,
    body: u64,
    carried: u64,
    scope: &Scope,
) -> u64
    ensures { result ≡
        saturated (loop_values carried scope.now.objects
        (optional_of condition.now) (optional_of step.now) leaves body) }
{
    let asked = match condition {
        Some(e) => tested_values(e, carried, scope),
        None => 2,
    };
    let again = step_values(step, leaves, carried, scope).saturating_add(if leaves {
        10
    } else {
        2
    });
    let turn = choice_values(carried, 1, 2, body.saturating_add(again));
    let whole = repeat_values(carried, asked.saturating_add(turn));
    whole.saturating_add(if leaves { 6 } else { 0 })
}

/// Of a `do`.
pub fn do_values(condition: &TExpr, leaves: bool, body: u64, carried: u64, scope: &Scope) -> u64
    ensures { result ≡
        saturated (do_values carried scope.now.objects condition.now leaves body) }
{
    let asked = tested_values(condition, carried, scope);
    if leaves {
        let again = choice_values(carried, 1, asked, 2).saturating_add(6);
        repeat_values(carried, body.saturating_add(again)).saturating_add(6)
    } else {
        repeat_values(carried, body.saturating_add(asked))
    }
}
