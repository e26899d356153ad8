//! The faults of the parser while it reads.

ghost use Rattle.std.specs.Prelude.{◌≡◌};
ghost use Rattle.c_parse_tokens.specs.declared.fault.Fault.TheVariants as fault;

use std::alloc::{AllocError, AllocFailed};

/// Why a nonterminal could not be read. After `Syntax` the next token is the first wrong one.
#[derive(Clone, Copy)]
pub enum Fault {
    Syntax,
    /// The grammar nests deeper than the reader's bound.
    OutOfFuel,
    NoMemory,
}

impl From<AllocError> for Fault {
    ghost from_gives = { λ _ e. e ≡ fault.NoMemory };

    fn from(_e: AllocError) -> Fault {
        Fault::NoMemory
    }
}

impl<T: Drop> From<AllocFailed<T>> for Fault {
    ghost from_gives = { λ _ e. e ≡ fault.NoMemory };

    fn from(_e: AllocFailed<T>) -> Fault {
        Fault::NoMemory
    }
}
