//! Why what a log says of functions is wrong.

ghost use Rattle.std.specs.Prelude.{◌≡◌};
ghost use Rattle.log_check.specs.declared.replay_fault.ReplayFault.TheVariants.{NoMemory};

use thiserror::Error;

/// Why what a log says of functions is wrong. Lines are numbered from 1.
#[derive(Clone, Copy, Debug, Error)]
pub enum ReplayFault {
    /// The function of this line has another number of values before its steps, or after them.
    #[error("line {line}: another number of values")]
    BadCount { line: u32 },
    /// The rule of this line does not apply at its node, where the steps before it are made.
    #[error("line {line}: no step there")]
    BadStep { line: u32 },
    /// Memory ran out.
    #[error("out of memory")]
    NoMemory,
}

impl From<base::NoMemory> for ReplayFault {
    ghost from_gives = { λ _ e. e ≡ NoMemory };

    fn from(_e: base::NoMemory) -> ReplayFault {
        ReplayFault::NoMemory
    }
}
