//! Why a log does not certify an image.

ghost use Rattle.std.specs.Prelude.{◌≡◌};
ghost use Rattle.log_check.specs.Faults.{of_reader, of_replay, of_source};
ghost use Rattle.log_check.specs.declared.judge_fault.JudgeFault.TheVariants.{NoMemory};

use crate::{ReadFault, ReplayFault};
use cc_source::CompileFault;
use thiserror::Error;

/// Why a log does not certify an image of a source. Lines of the log are numbered from 1, bytes of
/// the image from 0.
#[derive(Clone, Copy, Debug, Error)]
pub enum JudgeFault {
    /// The source is refused.
    #[error("{0}")]
    Source(CompileFault),
    /// The log has more than 2^31 bytes.
    #[error("the log is too long")]
    LongLog,
    /// The line is none of a log's, or none that may follow those before it.
    #[error("line {line}: no line of a log")]
    BadLine { line: u32 },
    /// The function of this line is not the one that stands at its place in the source.
    #[error("line {line}: another function")]
    BadFunction { line: u32 },
    /// The function of this line has another number of values before its steps, or after them.
    #[error("line {line}: another number of values")]
    BadCount { line: u32 },
    /// The rule of this line does not apply at its node, where the steps before it are made.
    #[error("line {line}: no step there")]
    BadStep { line: u32 },
    /// The image differs from that of the log, at this byte for the first time.
    #[error("byte {byte}: another image")]
    OtherImage { byte: u32 },
    /// Memory ran out.
    #[error("out of memory")]
    NoMemory,
}

impl From<CompileFault> for JudgeFault {
    ghost from_gives = { λ fault e. e ≡ of_source fault };

    fn from(fault: CompileFault) -> JudgeFault {
        match fault {
            CompileFault::NoMemory => JudgeFault::NoMemory,
            fault => JudgeFault::Source(fault),
        }
    }
}

impl From<ReadFault> for JudgeFault {
    ghost from_gives = { λ fault e. e ≡ of_reader fault };

    fn from(fault: ReadFault) -> JudgeFault {
        match fault {
            ReadFault::LongLog => JudgeFault::LongLog,
            ReadFault::BadLine { line } => JudgeFault::BadLine { line },
            ReadFault::NoMemory => JudgeFault::NoMemory,
        }
    }
}

impl From<ReplayFault> for JudgeFault {
    ghost from_gives = { λ fault e. e ≡ of_replay fault };

    fn from(fault: ReplayFault) -> JudgeFault {
        match fault {
            ReplayFault::BadCount { line } => JudgeFault::BadCount { line },
            ReplayFault::BadStep { line } => JudgeFault::BadStep { line },
            ReplayFault::NoMemory => JudgeFault::NoMemory,
        }
    }
}

impl From<base::NoMemory> for JudgeFault {
    ghost from_gives = { λ _ e. e ≡ NoMemory };

    fn from(_e: base::NoMemory) -> JudgeFault {
        JudgeFault::NoMemory
    }
}
