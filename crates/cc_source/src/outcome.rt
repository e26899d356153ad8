//! The outcome of a command whose source is not compiled.

ghost use Rattle.std.specs.Prelude.{◌≡◌};
ghost use Rattle.cc_source.specs.Refused.{outcome_of_refusal};

use cc_report::{Outcome, Refusal};

/// The outcome of a command whose source is refused so, or for which memory ran out.
pub fn outcome_of(refusal: Option<Refusal>) -> Outcome
    ensures { result ≡ outcome_of_refusal refusal }
{
    match refusal {
        Some(refusal) => Outcome::Refused(refusal),
        None => Outcome::NoMemory,
    }
}
