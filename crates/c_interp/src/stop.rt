//! How a run ends.

ghost use Rattle.std.specs.Prelude.{◌≡◌};
ghost use Rattle.c_interp.specs.declared.stop.Stop.TheVariants as stop;

use base::NoMemory;
use std::alloc::{AllocError, AllocFailed};

/// How the run of a program ends within its bound: with a status; cut, since the bound did not
/// suffice; or undefined. Or a call of the input or of the output failed.
#[derive(Clone, Copy, PartialEq, Eq, Debug)]
pub enum Ending {
    Exit(u8),
    Cut,
    Undefined,
    ReadFault,
    WriteFault,
}

// Why a step does not go on: the run has an ending, or memory is out. The status of an exit stands
// in the machine.
#[derive(Clone, Copy)]
pub(crate) enum Stop {
    Exit,
    Cut,
    Undefined,
    ReadFault,
    WriteFault,
    NoMemory,
}

impl From<NoMemory> for Stop {
    ghost from_gives = { λ _ e. e ≡ stop.NoMemory };

    fn from(_e: NoMemory) -> Stop {
        Stop::NoMemory
    }
}

impl From<AllocError> for Stop {
    ghost from_gives = { λ _ e. e ≡ stop.NoMemory };

    fn from(_e: AllocError) -> Stop {
        Stop::NoMemory
    }
}

impl<T: Drop> From<AllocFailed<T>> for Stop {
    ghost from_gives = { λ _ e. e ≡ stop.NoMemory };

    fn from(_e: AllocFailed<T>) -> Stop {
        Stop::NoMemory
    }
}
