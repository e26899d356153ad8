//! The test of what `units` requires.

ghost use Rattle.std.specs.Prelude.{ℕ, ◌<◌, ◌↔◌, IsTrue, Contains};
ghost use Rattle.call_order.specs.Units.{call_lists, AllKnown};

// Whether each of these functions is below the count.
fn all_below(callees: &[u32], count: usize) -> bool
    ensures { IsTrue result ↔ ((k : ℕ) → Contains callees.now k → k < count) }
{
    for callee in callees {
        if *callee as usize >= count {
            return false;
        }
    }
    true
}

/// Whether each function that is called is one of the list, as `units` requires.
pub fn all_known(calls: &[Vec<u32>]) -> bool
    ensures { IsTrue result ↔ AllKnown (call_lists calls.now) }
{
    for callees in calls {
        if !all_below(callees.as_slice(), calls.len()) {
            return false;
        }
    }
    true
}
