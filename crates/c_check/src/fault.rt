//! The faults of the checker: why a program is refused, and where.

ghost use Rattle.std.specs.Prelude.{◌≡◌, Err};
ghost use Rattle.c_check_def.specs.Refusals.{rule_broken};
ghost use Rattle.c_check.specs.declared.fault.CheckFault.TheVariants as fault;
ghost use Rattle.c_check.specs.Faults.{Refuses};

use base::NoMemory;
use c_check_def::{Broken, RefusalKind};
use thiserror::Error;

/// Why a program is refused, with the offset in the source, in bytes. Of several broken rules the
/// one at the least offset is reported, and at one offset the first of these variants.
#[derive(Clone, Copy, Debug, Error)]
pub enum CheckFault {
    /// A name, tag or member that is not declared, or a called function that is nowhere defined
    /// (ISO/IEC 9899:2011, 6.5.1, 6.5.2.3, 6.9).
    #[error("at byte {at}: not declared, or nowhere defined")]
    Unknown { at: u32 },
    /// A second declaration in one scope, or one of another type (6.7p3, 6.7p4).
    #[error("at byte {at}: declared before")]
    Redeclared { at: u32 },
    /// What may not be assigned, or has no address (6.5.16p2, 6.5.3.2).
    #[error("at byte {at}: not assignable, or without an address")]
    NotAssignable { at: u32 },
    /// Operands of other types than the operator takes (6.5).
    #[error("at byte {at}: the operator does not take operands of these types")]
    BadOperands { at: u32 },
    /// A call of what is no function, or with other arguments; a function that is not called
    /// (6.5.2.2).
    #[error("at byte {at}: not a call of a function with its arguments")]
    BadCall { at: u32 },
    /// What is no constant expression, or no size of an array (6.6, 6.7.6.2).
    #[error("at byte {at}: not a constant, or not the size of an array")]
    NotConstant { at: u32 },
    /// An initialiser that does not fit what it begins (6.7.9).
    #[error("at byte {at}: the initialiser does not fit")]
    BadInitialiser { at: u32 },
    /// A type that an object, a parameter or a result may not have (6.7.6).
    #[error("at byte {at}: not a type that this may have")]
    BadType { at: u32 },
    /// A value that the function does not give, or none (6.8.6.4).
    #[error("at byte {at}: not what the function gives")]
    BadReturn { at: u32 },
    /// A `break` or `continue` with nothing to leave or to go on with (6.8.6.2, 6.8.6.3).
    #[error("at byte {at}: nothing to leave or to go on with")]
    BadJump { at: u32 },
    /// A second label of one value in a `switch` (6.8.4.2).
    #[error("at byte {at}: a second label of this value")]
    BadLabel { at: u32 },
    /// No definition of `main` as `int main(void)` (5.1.2.2.1); `at` is the length of the source.
    #[error("no definition of main as int main(void)")]
    NoMain { at: u32 },
    /// A quantity above its limit (5.2.4.1), with its count, at what passes the limit: 1 function
    /// definitions, 2 parameters of a function, 3 bytes of the objects of a function, 4 bytes of
    /// globals.
    #[error("at byte {at}: quantity {which} is above its limit, with a count of {count}")]
    Limit { at: u32, which: u8, count: u64 },
    /// Memory ran out.
    #[error("out of memory")]
    NoMemory,
}

impl From<NoMemory> for CheckFault {
    ghost from_gives = { λ _ e. e ≡ fault.NoMemory };

    fn from(_e: NoMemory) -> CheckFault {
        CheckFault::NoMemory
    }
}

/// The fault that a broken rule is.
pub(crate) fn fault_of(broken: Broken) -> CheckFault
    ensures { Refuses result (Err (rule_broken broken)) }
{
    let at = broken.offset;
    match broken.rule {
        RefusalKind::Unknown => CheckFault::Unknown { at },
        RefusalKind::Redeclared => CheckFault::Redeclared { at },
        RefusalKind::NotAssignable => CheckFault::NotAssignable { at },
        RefusalKind::BadOperands => CheckFault::BadOperands { at },
        RefusalKind::BadCall => CheckFault::BadCall { at },
        RefusalKind::NotConstant => CheckFault::NotConstant { at },
        RefusalKind::BadInitialiser => CheckFault::BadInitialiser { at },
        RefusalKind::BadType => CheckFault::BadType { at },
        RefusalKind::BadReturn => CheckFault::BadReturn { at },
        RefusalKind::BadJump => CheckFault::BadJump { at },
        RefusalKind::BadLabel => CheckFault::BadLabel { at },
    }
}
