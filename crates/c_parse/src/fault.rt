//! The faults of the parser, as callers see them.

use thiserror::Error;

/// Why tokens have no tree, with the offset of the fault in the source, in bytes.
#[derive(Clone, Copy, Debug, Error)]
pub enum ParseFault {
    /// A keyword of C that the language leaves out.
    #[error("at byte {0}: a keyword that is left out")]
    LeftOut(u32),
    /// The first token after which the nesting is deeper than 200.
    #[error("at byte {0}: nesting deeper than 200")]
    TooDeep(u32),
    /// The first token that no program could go on with, or the end of the source.
    #[error("at byte {0}: no program goes on like this")]
    Syntax(u32),
    /// Memory ran out.
    #[error("out of memory")]
    NoMemory,
}
