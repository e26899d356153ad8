//! How far the search has come with each function.

ghost use Rattle.std.specs.Prelude.{◌≡◌, ℕ, ◌<◌, ◌≤◌, ◌^◌, ◌⊎◌, Contains, length, slice_index};
ghost use Rattle.call_order.specs.Search.{above, all_at, rank_in, stage_of, unit_in};

/// How far the search has come with a function.
#[derive(Clone, Copy)]
pub(crate) enum Stage {
    /// Not entered yet.
    New,
    /// Entered, at this index among the functions that are held.
    Held(usize),
    /// All that it reaches is entered, and its unit and rank are known.
    Closed(u32, u32),
}

/// The least of these functions.
pub(crate) fn least(members: &[u32]) -> u32
    requires { 0 < length members.now }
    ensures member { Contains members.now result }
    ensures least { (a : ℕ) → a < length members.now → result ≤ slice_index members.now a }
{
    let mut least = members[0];
    for member in members {
        if *member < least {
            least = *member;
        }
    }
    least
}

/// The unit of a closed function.
pub(crate) fn unit_in(stage: Stage) -> u32
    ensures { result ≡ unit_in stage }
{
    match stage {
        Stage::Closed(unit, _) => unit,
        _ => 0,
    }
}

/// The rank of a closed function.
pub(crate) fn rank_in(stage: Stage) -> u32
    ensures { result ≡ rank_in stage }
{
    match stage {
        Stage::Closed(_, rank) => rank,
        _ => 0,
    }
}

// The least rank above that of a closed function, and 0 for any other.
fn above(stage: Stage) -> u32
    requires { above stage < 2 ^ 32 }
    ensures { result ≡ above stage }
{
    match stage {
        Stage::Closed(_, rank) => rank + 1,
        _ => 0,
    }
}

/// The least rank that is no smaller than `rank` and above those of the closed ones of these
/// functions.
pub(crate) fn rank_above(stages: &[Stage], callees: &[u32], rank: u32) -> u32
    requires known { (k : ℕ) → Contains callees.now k → k < length stages.now }
    requires small { (k : ℕ) → Contains callees.now k → above (stage_of stages.now k) < 2 ^ 32 }
    ensures start { rank ≤ result }
    ensures above { (k : ℕ) → Contains callees.now k → above (stage_of stages.now k) ≤ result }
    ensures tight { (result ≡ rank)
        ⊎ ((k : ℕ) × Contains callees.now k × (result ≡ above (stage_of stages.now k))) }
{
    let mut top = rank;
    for callee in callees {
        top = top.max(above(stages[*callee as usize]));
    }
    top
}

/// Gives each of these functions the stage.
pub(crate) fn put_all(stages: &mut [Stage], members: &[u32], stage: Stage)
    requires { (a : ℕ) → a < length members.now → slice_index members.now a < length stages.old }
    ensures { stages.new ≡ all_at stages.old members.now stage }
{
    for member in members {
        stages[*member as usize] = stage;
    }
}
