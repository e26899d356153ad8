//! The test of the deps of a board.

ghost use Rattle.std.specs.Prelude.{◌≡◌, ℕ, ◌<◌, ◌≤◌, [], length, slice_index_or, IfSome, IfNone};
ghost use Rattle.base.specs.Limits.{most_jobs};
ghost use Rattle.board_core.specs.Calls.{IsFirstBadDep, IsFirstBad, NoBadDep};
ghost use Rattle.board_core.specs.History.{dep_lists};

// The first of these deps that is no job, or whose rank is not smaller than that of the job.
fn first_bad_dep(ranks: &[u32], deps: &[u32], job: usize) -> Option<u32>
    requires { job < length ranks.now }
    ensures some { IfSome result (IsFirstBadDep ranks.now deps.now job) }
    ensures none { IfNone result (NoBadDep ranks.now deps.now job) }
{
    for dep in deps {
        if *dep as usize >= ranks.len() || ranks[*dep as usize] >= ranks[job] {
            return Some(*dep);
        }
    }
    None
}

/// The first job that has a bad dep, and its first bad dep.
pub(crate) fn first_bad(ranks: &[u32], deps: &[Vec<u32>]) -> Option<(u32, u32)>
    requires lengths { length ranks.now ≡ length deps.now }
    requires few { length deps.now ≤ most_jobs }
    ensures some { IfSome result (λ bad. IsFirstBad ranks.now (dep_lists deps.now) bad.0 bad.1) }
    ensures none { IfNone result ((j : ℕ) → j < length deps.now
        → NoBadDep ranks.now (slice_index_or (dep_lists deps.now) j []) j) }
{
    for job in 0..deps.len() {
        if let Some(dep) = first_bad_dep(ranks, deps[job].as_slice(), job) {
            return Some((job as u32, dep));
        }
    }
    None
}
