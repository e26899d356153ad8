//! What happens on a board, and what its calls answer.

ghost use Rattle.std.specs.Prelude.{◌≡◌};
ghost use Rattle.board_core.specs.declared.event.OpenFault.TheVariants.{NoMemory};

use std::alloc::{AllocError, AllocFailed};
use thiserror::Error;

/// An event of a board. Workers and jobs are named by their numbers, from 0.
#[derive(Clone, Copy, Debug, PartialEq, Eq)]
pub enum Event {
    /// The worker was given the job, and holds it.
    Claim { worker: u32, job: u32 },
    /// The worker handed in the result of the job that it held, which is out from then on.
    Publish { worker: u32, job: u32 },
    /// The worker stopped; a job that it held is open again.
    Stop { worker: u32 },
}

/// The answer to a claim.
#[derive(Clone, Copy, Debug, PartialEq, Eq)]
pub enum Claim {
    /// The worker holds this job from now on.
    Job(u32),
    /// Nobody has stopped, no open job has all its deps out, and some job is held.
    Wait,
    /// Nobody has stopped, and all jobs are out.
    Done,
    /// Some worker has stopped.
    Stopped,
}

/// Why a board is not opened.
#[derive(Clone, Copy, Debug, PartialEq, Eq, Error)]
pub enum OpenFault {
    /// `dep`, one of the deps of `job`, is no job, or its rank is not smaller than that of `job`.
    /// It is the first such in order of job and then of list.
    #[error("job {job} cannot depend on {dep}")]
    BadDeps { job: u32, dep: u32 },
    /// There was no memory for the board.
    #[error("out of memory")]
    NoMemory,
}

impl From<AllocError> for OpenFault {
    ghost from_gives = { λ _ e. e ≡ NoMemory };

    fn from(_: AllocError) -> Self {
        OpenFault::NoMemory
    }
}

impl<T: Drop> From<AllocFailed<T>> for OpenFault {
    ghost from_gives = { λ _ e. e ≡ NoMemory };

    fn from(_: AllocFailed<T>) -> Self {
        OpenFault::NoMemory
    }
}
