//! Laws of the definitions, each the contract of a function that does nothing.

ghost use Rattle.cc_source.specs.Refused.{AcceptedIsNotRefused, AcceptedOrRefused, OneRefusal};

/// A source has at most one refusal.
pub fn a_source_has_one_refusal()
    ensures { OneRefusal }
{
    crate::laws::the_fault_is_determined();
}

/// A source that is accepted is not refused.
pub fn accepted_sources_are_not_refused()
    ensures { AcceptedIsNotRefused }
{
    crate::laws::accepted_is_not_refused();
}

/// A source is accepted, or it is refused.
pub fn sources_are_accepted_or_refused()
    ensures { AcceptedOrRefused }
{
    c_lex::laws::faults_are_first();
    crate::laws::accepted_or_refused();
}
