//! How a change spreads to the functions whose deps lead to it.

ghost use Rattle.std.specs.Prelude.{◌≡◌, ◌<◌, ◌^◌, ◌↔◌, ℕ, [], true, false, length, slice_index_or, Contains, IsTrue, IfOk};
ghost use Rattle.call_order.specs.Units.{call_lists, AllKnown};
ghost use Rattle.g_pass_work.specs.Ranks.{DepsAreBelow, IsSettled};

use crate::ranks::by_rank;
use base::NoMemory;
use std::alloc::Global;

// Whether none of these functions is stale.
fn is_none_stale(functions: &[u32], stale: &[bool]) -> bool
    requires { (d : ℕ) → Contains functions.now d → d < length stale.now }
    ensures { IsTrue result ↔ ((d : ℕ) → Contains functions.now d
        → slice_index_or stale.now d true ≡ false) }
{
    for function in functions {
        if stale[*function as usize] {
            return false;
        }
    }
    true
}

// Whether the function is kept: it has not changed, and none of its deps is stale.
fn is_kept(deps: &[u32], changed: &[bool], stale: &[bool], function: usize) -> bool
    requires inside { function < length changed.now }
    requires known { (d : ℕ) → Contains deps.now d → d < length stale.now }
    ensures { IsTrue result ↔ ((slice_index_or changed.now function true ≡ false)
        × ((d : ℕ) → Contains deps.now d → slice_index_or stale.now d true ≡ false)) }
{
    if changed[function] {
        return false;
    }
    is_none_stale(deps, stale)
}

// Finds whether the function is stale, where that is known of its deps.
fn settle(deps: &[Vec<u32>], changed: &[bool], stale: &mut [bool], function: usize)
    requires inside { function < length deps.now }
    requires all_changed { length changed.now ≡ length deps.now }
    requires all_stale { length stale.old ≡ length deps.now }
    requires known { AllKnown (call_lists deps.now) }
    requires settled { (d : ℕ) → Contains (slice_index_or (call_lists deps.now) function []) d
        → IsSettled (call_lists deps.now) changed.now stale.old d }
    ensures settled { IsSettled (call_lists deps.now) changed.now stale.new function }
    ensures kept { (j : ℕ) → IsSettled (call_lists deps.now) changed.now stale.old j
        → IsSettled (call_lists deps.now) changed.now stale.new j }
{
    let own = deps[function].as_slice();
    let is_kept = is_kept(own, changed, stale, function);
    stale[function] = !is_kept;
}

// Finds which of these functions are stale, where that is known of the deps of each.
fn settle_all(deps: &[Vec<u32>], changed: &[bool], stale: &mut [bool], functions: &[u32])
    requires inside { (f : ℕ) → Contains functions.now f → f < length deps.now }
    requires all_changed { length changed.now ≡ length deps.now }
    requires all_stale { length stale.old ≡ length deps.now }
    requires known { AllKnown (call_lists deps.now) }
    requires settled { (f d : ℕ) → Contains functions.now f
        → Contains (slice_index_or (call_lists deps.now) f []) d
        → IsSettled (call_lists deps.now) changed.now stale.old d }
    ensures settled { (f : ℕ) → Contains functions.now f
        → IsSettled (call_lists deps.now) changed.now stale.new f }
    ensures kept { (j : ℕ) → IsSettled (call_lists deps.now) changed.now stale.old j
        → IsSettled (call_lists deps.now) changed.now stale.new j }
{
    for function in functions {
        settle(deps, changed, stale, *function as usize);
    }
}

/// For each function whether its deps lead to one that has changed, itself included. The functions
/// are gone through in order of rank.
pub(crate) fn spread(
    alloc: Global,
    ranks: &[u32],
    deps: &[Vec<u32>],
    changed: &[bool],
) -> Result<Vec<bool>, NoMemory>
    requires few { length ranks.now < 2 ^ 32 }
    requires all_ranks { length ranks.now ≡ length deps.now }
    requires all_changed { length changed.now ≡ length deps.now }
    requires known { AllKnown (call_lists deps.now) }
    requires below { DepsAreBelow ranks.now (call_lists deps.now) }
    ensures count { IfOk result (λ stale. length stale.items ≡ length deps.now) }
    ensures each { IfOk result (λ stale. (j : ℕ)
        → IsSettled (call_lists deps.now) changed.now stale.items j) }
{
    let by_rank = by_rank(alloc, ranks)?;
    let mut stale = vec![in alloc; true; deps.len()]?;
    for functions in &by_rank {
        settle_all(deps, changed, &mut stale, functions.as_slice());
    }
    Ok(stale)
}
