//! Why bytes are not read as a log.

ghost use Rattle.std.specs.Prelude.{◌≡◌};
ghost use Rattle.log_check.specs.declared.fault.ReadFault.TheVariants.{NoMemory};

use thiserror::Error;

/// Why bytes are not read as a log. Lines are numbered from 1.
#[derive(Clone, Copy, Debug, Error)]
pub enum ReadFault {
    /// There are more than 2^31 of them.
    #[error("the log is too long")]
    LongLog,
    /// The line is none of a log's, or none that may follow those before it.
    #[error("line {line}: no line of a log")]
    BadLine { line: u32 },
    /// Memory ran out.
    #[error("out of memory")]
    NoMemory,
}

impl From<base::NoMemory> for ReadFault {
    ghost from_gives = { λ _ e. e ≡ NoMemory };

    fn from(_e: base::NoMemory) -> ReadFault {
        ReadFault::NoMemory
    }
}
