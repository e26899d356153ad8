//! The reasons why a struct is not defined.

ghost use Rattle.std.specs.Prelude.{◌≡◌};
ghost use Rattle.c_type.specs.declared.define_fault.DefineFault.TheVariants.{NoMemory};

use std::alloc::{AllocError, AllocFailed};
use thiserror::Error;

/// Why a struct is not defined.
#[derive(Clone, Copy, PartialEq, Eq, Debug, Error)]
pub enum DefineFault {
    /// It would have more than `MOST_TYPE_BYTES`.
    #[error("a struct of more than 1048576 bytes")]
    TooLarge,
    /// Memory ran out.
    #[error("out of memory")]
    NoMemory,
}

impl From<AllocError> for DefineFault {
    ghost from_gives = { λ _ e. e ≡ NoMemory };

    fn from(_e: AllocError) -> DefineFault {
        DefineFault::NoMemory
    }
}

impl<T: Drop> From<AllocFailed<T>> for DefineFault {
    ghost from_gives = { λ _ e. e ≡ NoMemory };

    fn from(_e: AllocFailed<T>) -> DefineFault {
        DefineFault::NoMemory
    }
}

impl From<base::NoMemory> for DefineFault {
    ghost from_gives = { λ _ e. e ≡ NoMemory };

    fn from(_e: base::NoMemory) -> DefineFault {
        DefineFault::NoMemory
    }
}
