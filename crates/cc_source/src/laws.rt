//! Laws of accepted and refused sources, each the contract of a function that does nothing.

ghost use Rattle.cc_source.specs.Accepted.{AcceptedIsNotRefused, AcceptedOrRefused, OneFault, OneProgram};

/// A source is accepted as one program at most.
pub fn the_program_is_determined()
    ensures { OneProgram }
{}

/// A source has one fault at most, out of memory apart.
pub fn the_fault_is_determined()
    ensures { OneFault }
{
    c_parse::laws::the_answer_is_determined();
    c_parse::laws::shaped_trees_are_accepted();
}

/// A source that is accepted has no fault, out of memory apart.
pub fn accepted_is_not_refused()
    ensures { AcceptedIsNotRefused }
{
    c_parse::laws::shaped_trees_are_accepted();
}

/// A source is accepted, or it has a fault.
pub fn accepted_or_refused()
    ensures { AcceptedOrRefused }
{}
