//! Boards of jobs of a shape.
ghost use Rattle.std.specs.Prelude.{◌≡◌, ◌≤◌, [], IfOk};
ghost use Rattle.base.specs.Limits.{most_jobs, most_workers};

use crate::turns::Numbers;
use board_core::{Board, OpenFault};
use std::alloc::{AllocError, Global};

/// Which jobs a job depends on.
#[derive(Clone, Copy, Debug)]
pub enum Shape {
    /// None.
    Free,
    /// The one before.
    Chain,
    /// All others on the first one, and this on none.
    Fork,
    /// The last one on all others, and these on none.
    Join,
}

// The rank of a job. Those of jobs that depend on none are the same, and here not 0.
fn rank(shape: Shape, jobs: usize, job: usize) -> u32
    requires { job ≤ most_jobs }
{
    match shape {
        Shape::Free => 7,
        Shape::Chain => job as u32,
        Shape::Fork => (0 < job) as u32,
        Shape::Join => (job + 1 == jobs) as u32,
    }
}

// The jobs that a job depends on.
fn deps_of(alloc: Global, shape: Shape, jobs: usize, job: usize) -> Result<Vec<u32>, AllocError>
    requires { job ≤ most_jobs }
{
    let (from, to) = match shape {
        Shape::Chain => (job.saturating_sub(1), job),
        Shape::Fork if 0 < job => (0, 1),
        Shape::Join if job + 1 == jobs => (0, job),
        _ => (0, 0),
    };
    let mut deps = Vec::new(alloc);
    for dep in from..to {
        deps.push(dep as u32)?;
    }
    Ok(deps)
}

/// A board of this work.
pub fn opened(
    alloc: Global,
    work: &Numbers,
    shape: Shape,
    workers: u32,
) -> Result<Board<Numbers>, OpenFault>
    requires few { work.now.jobs ≤ most_jobs }
    requires workers { workers ≤ most_workers }
    ensures { IfOk result (λ board. (board.events ≡ []) × (board.workers ≡ workers)
        × (board.work ≡ work.now)) }
{
    let mut ranks = Vec::with_capacity(alloc, work.jobs)?;
    let mut deps = Vec::with_capacity(alloc, work.jobs)?;
    for job in 0..work.jobs {
        ranks.push(rank(shape, work.jobs, job))?;
        deps.push(deps_of(alloc, shape, work.jobs, job)?)?;
    }
    Board::open(alloc, work, ranks.as_slice(), deps.as_slice(), workers)
}
