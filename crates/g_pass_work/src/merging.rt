//! Answers put beside each other: those that are given anew, and those that are kept.

ghost use Rattle.std.specs.Prelude.{◌≡◌, ◌+◌, ◌<◌, ◌≤◌, ◌^◌, ℕ, List, [], ◌∷◌, ◌++◌, map, drop, slice_get, OnOk, IfOk};
ghost use Rattle.std.specs.List.{cons_option};
ghost use Rattle.std.specs.Arc.{arc_value};
ghost use Rattle.g_pass_work.specs.Renewal.{merged};

use crate::numbering::is_stale;
use base::NoMemory;
use std::alloc::Global;
use std::sync::Arc;

// Adds the answer at an index, where there is one.
fn add<M: Drop>(from: &[Arc<M>], index: usize, all: &mut Vec<Arc<M>>) -> Result<(), NoMemory>
    ensures { OnOk result (map arc_value all.new.items ≡ map arc_value all.old.items
        ++ cons_option (slice_get (map arc_value from.now) index) []) }
{
    match from.get(index) {
        Some(answer) => {
            all.push(Arc::try_clone(answer)?)?;
            Ok(())
        }
        None => Ok(()),
    }
}

// Adds the answer of a function, and says how many of those that are given have been taken.
fn add_next<M: Drop>(
    function: u32,
    stale: &[bool],
    kept: &[Arc<M>],
    given: &[Arc<M>],
    taken: usize,
    all: &mut Vec<Arc<M>>,
) -> Result<usize, NoMemory>
    requires { taken < 2 ^ 63 }
    ensures most { IfOk result (λ next. next ≤ taken + 1) }
    ensures rest { IfOk result (λ next. (js : List ℕ) → map arc_value all.new.items
        ++ merged stale.now (map arc_value kept.now) js (drop next (map arc_value given.now))
        ≡ map arc_value all.old.items ++ merged stale.now (map arc_value kept.now) (function ∷ js)
        (drop taken (map arc_value given.now))) }
{
    if is_stale(stale, function) {
        add(given, taken, all)?;
        return Ok(taken + 1);
    }
    add(kept, function as usize, all)?;
    Ok(taken)
}

/// Of each of these functions its answer: of a stale one the next of those that are given, of
/// another the kept one.
pub fn merged<M: Drop>(
    alloc: Global,
    functions: &[u32],
    stale: &[bool],
    kept: &[Arc<M>],
    given: &[Arc<M>],
) -> Result<Vec<Arc<M>>, NoMemory>
    ensures { IfOk result (λ all. map arc_value all.items ≡ merged
        stale.now (map arc_value kept.now) functions.now (map arc_value given.now)) }
{
    let mut all = Vec::with_capacity(alloc, functions.len())?;
    let mut taken = 0;
    for function in functions {
        taken = add_next(*function, stale, kept, given, taken, &mut all)?;
    }
    Ok(all)
}
