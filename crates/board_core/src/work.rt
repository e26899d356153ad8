//! The work that a board hands out.

ghost use Rattle.std.specs.Prelude.{◌≡◌, ◌<◌, ℕ, List, map, IfOk};
ghost use Rattle.std.specs.Arc.{arc_value};

use base::NoMemory;
use std::alloc::Global;
use std::sync::Arc;

/// Work in numbered jobs. The result of a job is determined by the results of the jobs that it
/// depends on.
pub trait Work: Send + Sync {
    /// The type of a result.
    type Made: Send + Sync + Drop;

    /// How many jobs there are; they are numbered from 0.
    ghost jobs: { Self → ℕ };

    /// The result of a job, given those of the jobs that it depends on.
    ghost made: { Self → ℕ → List Self.Made → Self.Made };

    /// Makes the result of a job, given those of the jobs that it depends on. `NoMemory` only where
    /// the allocator has none.
    fn make(
        &self,
        alloc: Global,
        job: u32,
        callees: &[Arc<Self::Made>],
    ) -> Result<Self::Made, NoMemory>
        requires { job < jobs self.now }
        ensures { IfOk result (λ it. it ≡ made self.now job (map arc_value callees.now)) };
}
