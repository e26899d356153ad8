//! Laws of the linear code of lambdas, for the proofs of the crates above: each is the contract of
//! a function that does nothing.

ghost use Rattle.s_sequence_keeps.specs.Laws.{CallsAgree, ProgramsAgree, CallsAreWithin, ProgramsAreWithin, SequencedCodeIsClosed};

/// At each bound the linear code of a well-formed lambda does what the lambda does: where the
/// lambda is defined, both give back, are cut, or end the program, after the same events. So do
/// programs.
pub fn linear_code_does_what_its_lambda_does()
    ensures calls { CallsAgree }
    ensures programs { ProgramsAgree }
{}

/// Where the run of the lambda is defined, it and the run of its linear code are within each other,
/// and meet equally deep stacks, whatever the sizes of frames. So it is with programs.
pub fn runs_are_within_each_other()
    ensures calls { CallsAreWithin }
    ensures programs { ProgramsAreWithin }
{}

/// In the linear code of a well-formed lambda each name is written before it is read, on each way
/// through it. A loop's body and its moves back read only what its moves in or its body wrote, and
/// the moves back write the names that the moves in wrote.
pub fn sequenced_code_is_closed()
    ensures { SequencedCodeIsClosed }
{}
