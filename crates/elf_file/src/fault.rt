//! Why a file is no executable that can be loaded.

use thiserror::Error;

/// Why a file is no executable that can be loaded. A file with several faults is refused for the
/// first in this order: `LongFile`, `Short` for the ELF header, `NotElf`, `NotProfile`, `Short` for
/// the program headers, `BadSegment`.
#[derive(Clone, Copy, Debug, PartialEq, Eq, Error)]
pub enum ElfFault {
    /// The file ends within its ELF header or its program headers.
    #[error("the file ends within its headers")]
    Short = 1,
    /// The file does not begin with ELFMAG.
    #[error("the file does not begin as an ELF file")]
    NotElf = 2,
    /// The file is no executable for RISC-V, 32-bit, little-endian, with 1 to 16 program headers.
    #[error("not an executable for 32-bit RISC-V with 1 to 16 program headers")]
    NotProfile = 3,
    /// A segment is not within the file or the address space, overlaps another one, or the segments
    /// have more than 268,435,456 bytes of memory together.
    #[error("a segment passes its bounds or overlaps another one")]
    BadSegment = 4,
    /// The file has more than 268,435,456 bytes.
    #[error("the file has more than 268435456 bytes")]
    LongFile = 5,
}

impl ElfFault {
    ghost use Rattle.std.specs.Prelude.{◌≡◌};
    ghost use Rattle.elf_file.specs.ElfFault.{number_of, name_of};

    /// The number of the fault in reports, 1 to 5.
    pub fn number(self) -> u32
        ensures { result ≡ number_of self }
    {
        self as u32
    }

    /// The name of the fault in reports.
    pub fn name(self) -> &'static str
        ensures { result.now ≡ name_of self }
    {
        match self {
            ElfFault::Short => "Short",
            ElfFault::NotElf => "NotElf",
            ElfFault::NotProfile => "NotProfile",
            ElfFault::BadSegment => "BadSegment",
            ElfFault::LongFile => "LongFile",
        }
    }
}
