//! The lexical faults: why a source has no tokens, and where.

ghost use Rattle.std.specs.Prelude.{◌≡◌};
ghost use Rattle.c_lex.specs.declared.fault.LexFault.TheVariants.{NoMemory};

use std::alloc::{AllocError, AllocFailed};
use thiserror::Error;

/// Why a source has no tokens, with the offset of the fault in bytes.
#[derive(Clone, Copy, Debug, PartialEq, Eq, Error)]
pub enum LexFault {
    /// A byte that begins no token, blank or comment.
    #[error("at byte {0}: a byte that begins no token")]
    BadByte(u32),
    /// A `/*` without its `*/`, at its start.
    #[error("at byte {0}: a comment that does not end")]
    OpenComment(u32),
    /// A character constant or a string literal whose line ends before its closing quote, at its
    /// start.
    #[error("at byte {0}: a quote that is not closed on its line")]
    OpenText(u32),
    /// An escape that is unknown or above 255, or a character constant that is not one character,
    /// at the quote.
    #[error("at byte {0}: an escape or a character constant that is not allowed")]
    BadText(u32),
    /// A decimal constant above 2147483647 without suffix, or any constant above 4294967295, at its
    /// start.
    #[error("at byte {0}: a constant that is too large")]
    TooWide(u32),
    /// A name of more than 63 bytes, at its start.
    #[error("at byte {0}: a name of more than 63 bytes")]
    LongName(u32),
    /// A `#` that is not part of an include line.
    #[error("at byte {0}: a directive that is not known")]
    Directive(u32),
    /// Token number 200,001, at its start.
    #[error("at byte {0}: more than 200000 tokens")]
    ManyTokens(u32),
    /// A number that is no integer constant, at its start.
    #[error("at byte {0}: a number that is not allowed")]
    BadNumber(u32),
    /// A source of more than 1,048,576 bytes; the offset is 1,048,576.
    #[error("at byte {0}: a source of more than 1048576 bytes")]
    LongSource(u32),
    /// Memory ran out.
    #[error("out of memory")]
    NoMemory,
}

impl From<AllocError> for LexFault {
    ghost from_gives = { λ _ e. e ≡ NoMemory };

    fn from(_e: AllocError) -> LexFault {
        LexFault::NoMemory
    }
}

impl<T: Drop> From<AllocFailed<T>> for LexFault {
    ghost from_gives = { λ _ e. e ≡ NoMemory };

    fn from(_e: AllocFailed<T>) -> LexFault {
        LexFault::NoMemory
    }
}
