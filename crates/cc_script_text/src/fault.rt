//! Why a script gives no command.

ghost use Rattle.std.specs.Prelude.{◌≡◌};
ghost use Rattle.cc_script_text.specs.declared.fault.ScriptFault.TheVariants as fault;

use std::alloc::AllocError;
use thiserror::Error;

/// Why a script gives no command.
#[derive(Clone, Copy, Debug, Error)]
pub enum ScriptFault {
    /// The command of this number, counted from 1, has none of the forms, is not whole where the
    /// script ends, or is one more than `MOST_COMMANDS`.
    #[error("command {number}: none of a script")]
    Broken { number: u32 },
    /// A read failed.
    #[error("input failed")]
    Failed,
    /// Memory ran out.
    #[error("out of memory")]
    NoMemory,
}

impl From<AllocError> for ScriptFault {
    ghost from_gives = { λ _ e. e ≡ fault.NoMemory };

    fn from(_: AllocError) -> ScriptFault {
        ScriptFault::NoMemory
    }
}
