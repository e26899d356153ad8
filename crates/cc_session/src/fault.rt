//! Why an edit of a source is refused.

ghost use Rattle.std.specs.Prelude.{◌≡◌};
ghost use Rattle.cc_session.specs.declared.fault.EditFault.TheVariants.{NoMemory};

use base::{Bytes, NoMemory};
use cc_source::CompileFault;
use thiserror::Error;

/// Why an edit of a source is refused: the first of these that applies, out of memory apart, which
/// may come in place of any answer. The fault of a source is never its `NoMemory`.
#[derive(Debug, Drop, Error)]
pub enum EditFault {
    /// No function that the source defines has the name (ISO/IEC 9899:2011, 6.9.1).
    #[error("no function has this name")]
    NoFunction,
    /// The new source, which is given back, is not accepted.
    #[error("{fault}")]
    Source { fault: CompileFault, new: Bytes },
    /// The new source defines functions of other names, or in another order.
    #[error("the functions have other names")]
    OtherNames,
    /// Memory ran out.
    #[error("out of memory")]
    NoMemory,
}

impl From<NoMemory> for EditFault {
    ghost from_gives = { λ _ e. e ≡ NoMemory };

    fn from(_fault: NoMemory) -> EditFault {
        EditFault::NoMemory
    }
}
