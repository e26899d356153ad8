//! How a command ended.

ghost use Rattle.std.specs.Prelude.{◌≡◌};
ghost use Rattle.cc_report.specs.declared.outcome.Outcome.TheVariants.{NoMemory};

use crate::log_fault::LogFault;
use crate::refusal::Refusal;
use base::NoMemory;
use elf_file::ElfFault;
use std::alloc::AllocError;

/// How a command ended.
#[derive(Clone, Copy)]
pub enum Outcome {
    /// The command was done.
    Done,
    /// The arguments are no command.
    Usage,
    /// A file or the input was not read.
    ReadFault,
    /// A file or the output was not written.
    WriteFault,
    /// The source is refused.
    Refused(Refusal),
    /// The file is no executable that can be run.
    BadImage(ElfFault),
    /// Memory ran out.
    NoMemory,
    /// The program ended with this status.
    Exit(u8),
    /// The program had no room left on its stack.
    Stack,
    /// As many instructions were done as were allowed, and the program had not ended.
    Budget,
    /// The instruction at the address `pc` cannot be done; `why` is as in `rv_machine::Stop`.
    Stuck { pc: u32, why: u8 },
    /// The source was run, and did what no run of C says (ISO/IEC 9899:2011, 3.4.3).
    Undefined,
    /// The source was run, and a bound of its turns and calls cut it off.
    Cut,
    /// The log shows that the image is that of the source.
    Certified,
    /// The log does not, for the fault of this kind; `place` is its line, counted from 1, or of
    /// `OtherImage` the byte at which the images differ, counted from 0.
    NotCertified { kind: LogFault, place: u32 },
    /// The command of this number of a script is none, or has no end; the first is number 1.
    Script(u32),
}

/// How a command ended, with what is said of it.
#[derive(Drop)]
pub enum Ending {
    /// So, and the line of the outcome is said.
    Line(Outcome),
    /// The command was done, and this report is said.
    Report(Vec<u8>),
}

impl From<AllocError> for Outcome {
    ghost from_gives = { λ _ e. e ≡ NoMemory };

    fn from(_: AllocError) -> Self {
        Outcome::NoMemory
    }
}

impl From<NoMemory> for Outcome {
    ghost from_gives = { λ _ e. e ≡ NoMemory };

    fn from(_: NoMemory) -> Self {
        Outcome::NoMemory
    }
}
