//! Laws of code over places, for the proofs of the crates above: each is the contract of a function
//! that does nothing.

ghost use Rattle.a_place_keeps.specs.Laws.{ClosedHaveOwnTurns, SafeCodeDoesTheSame, IntervalsSpanCode, PlacesApartAreSafe, FunctionsAgree, SequencedFunctionsAgree, SequencedHaveOwnTurns, SequencedSharedAgree, SharedFunctionsAgree};

/// Where places are safe for a code and what it needs holds in its place what it holds as a name,
/// the code does the same over places: events, memory, input and status are equal, and so is what
/// is needed after it.
pub fn safe_code_does_the_same()
    ensures { SafeCodeDoesTheSame }
{}

/// The intervals of the names of a list of lines span each code whose lines stand in it.
pub fn intervals_span_code()
    ensures { IntervalsSpanCode }
{}

/// Where names that share a position have different places, places are safe for closed code that
/// the intervals span: the names written before it have started, and those needed after it go on
/// to its end.
pub fn places_apart_are_safe()
    ensures { PlacesApartAreSafe }
{}

/// Of each list of closed functions, calls over names and calls over places are equal at every
/// bound, on all arguments, memories and inputs.
pub fn functions_agree()
    ensures { FunctionsAgree }
{}

/// Of the linear code of each list of well-formed lambdas, calls over names and calls over places
/// are equal at every bound.
pub fn sequenced_functions_agree()
    ensures { SequencedFunctionsAgree }
{
    s_sequence_keeps::laws::sequenced_code_is_closed();
    functions_agree();
}

/// Of each list of closed functions, calls over names and calls over shared places are equal at
/// every bound.
pub fn shared_functions_agree()
    ensures { SharedFunctionsAgree }
{
    a_place::share_laws::shared_sites_are_safe();
    a_place::share_laws::shared_params_differ();
}

/// Of the linear code of each list of well-formed lambdas, calls over names and calls over shared
/// places are equal at every bound.
pub fn sequenced_shared_agree()
    ensures { SequencedSharedAgree }
{
    s_sequence_keeps::laws::sequenced_code_is_closed();
    shared_functions_agree();
}

/// Closed functions whose choices have codes need at the label of a loop only what its moves back
/// write and what is needed after it.
pub fn closed_have_own_turns()
    ensures { ClosedHaveOwnTurns }
{}

/// So it is with the linear code of well-formed lambdas.
pub fn sequenced_have_own_turns()
    ensures { SequencedHaveOwnTurns }
{
    s_sequence_keeps::laws::sequenced_code_is_closed();
    closed_have_own_turns();
}
