//! What differs between two lists of lambdas.

ghost use Rattle.std.specs.Prelude.{◌≡◌, ◌<◌, ◌↔◌, ℕ, true, false, length, slice_index_or, IsTrue, IfOk};
ghost use Rattle.call_order.specs.Units.{call_lists};
ghost use Rattle.g_pass_work.specs.Stale.{IsUnchanged};

use base::NoMemory;
use g_graph::{Lambda, equal};
use std::alloc::Global;

// Whether the function has the lambda and the deps that it had.
fn is_unchanged(
    old: &[Lambda],
    old_deps: &[Vec<u32>],
    new: &[Lambda],
    deps: &[Vec<u32>],
    function: usize,
) -> bool
    requires inside { function < length new.now }
    requires has_deps { function < length deps.now }
    ensures { IsTrue result ↔ IsUnchanged
        old.now (call_lists old_deps.now) new.now (call_lists deps.now) function }
{
    if function >= old.len() || function >= old_deps.len() {
        return false;
    }
    if !equal(&old[function], &new[function]) {
        return false;
    }
    let own = deps[function].as_slice();
    own == old_deps[function].as_slice()
}

/// For each function of the new list whether it has changed: whether its lambda or its deps are not
/// those that it had.
pub(crate) fn changes(
    alloc: Global,
    old: &[Lambda],
    old_deps: &[Vec<u32>],
    new: &[Lambda],
    deps: &[Vec<u32>],
) -> Result<Vec<bool>, NoMemory>
    requires { length deps.now ≡ length new.now }
    ensures count { IfOk result (λ changed. length changed.items ≡ length new.now) }
    ensures each { IfOk result (λ changed. (j : ℕ)
        → (slice_index_or changed.items j true ≡ false) ↔ IsUnchanged
        old.now (call_lists old_deps.now) new.now (call_lists deps.now) j) }
{
    let mut changed = Vec::with_capacity(alloc, new.len())?;
    for function in 0..new.len() {
        changed.push(!is_unchanged(old, old_deps, new, deps, function))?;
    }
    Ok(changed)
}
