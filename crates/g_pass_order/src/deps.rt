//! The functions that each function calls and that are not of its unit.

ghost use Rattle.std.specs.Prelude.{◌≡◌, ℕ, ◌<◌, length, Contains, IfOk};
ghost use Rattle.call_order.specs.Units.{call_lists, AllKnown};
ghost use Rattle.g_pass_order.specs.Calls.{outside, outside_calls};

use base::NoMemory;
use std::alloc::Global;

// Of these functions those that are not of the unit of the one.
fn others(
    alloc: Global,
    unit: &[u32],
    function: usize,
    called: &[u32],
) -> Result<Vec<u32>, NoMemory>
    requires inside { function < length unit.now }
    requires known { (f : ℕ) → Contains called.now f → f < length unit.now }
    ensures { IfOk result (λ found. found.items ≡ outside unit.now function called.now) }
{
    let mut found = Vec::new(alloc);
    for callee in called {
        if unit[*callee as usize] != unit[function] {
            found.push(*callee)?;
        }
    }
    Ok(found)
}

/// For each function those of other units that it calls.
pub fn deps(alloc: Global, unit: &[u32], calls: &[Vec<u32>]) -> Result<Vec<Vec<u32>>, NoMemory>
    requires long { length unit.now ≡ length calls.now }
    requires known { AllKnown (call_lists calls.now) }
    ensures { IfOk result (λ deps.
        call_lists deps.items ≡ outside_calls unit.now (call_lists calls.now)) }
{
    let mut deps = Vec::with_capacity(alloc, calls.len())?;
    for function in 0..calls.len() {
        deps.push(others(alloc, unit, function, calls[function].as_slice())?)?;
    }
    Ok(deps)
}
