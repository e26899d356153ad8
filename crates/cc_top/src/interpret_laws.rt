//! The law of how `interp` ends, the contract of a function that does nothing.

ghost use Rattle.cc_top.specs.InterpretEnds.{AcceptedAreRun};

/// Where no call failed, a source that is accepted is run: the command ends as its run was heard
/// to, or memory ran out.
pub fn accepted_are_run()
    ensures { AcceptedAreRun }
{
    cc_source::refusal_laws::accepted_sources_are_not_refused();
    cc_source::laws::the_program_is_determined();
}
