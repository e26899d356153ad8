//! Laws of what a source program does, for the proofs of the crates above: each is the contract of
//! a function that does nothing.

ghost use Rattle.c_mean.specs.RunLaws.{ExtendedRefines, ExpressionsExtend, StatementsExtend, NestedCallsExtend, CallsExtend, RunsExtend, DeepestGrows, ExpressionsTakeInput, StatementsTakeInput, NestedCallsTakeInput, CallsTakeInput, RunsTakeInput, HeardIsRun, HeardIsUndefined, HeardExtends};

/// A greater bound only extends: what was cut may go on, and every other ending stays as it is.
pub fn bounds_extend()
    ensures expressions { ExpressionsExtend }
    ensures statements { StatementsExtend }
    ensures nested { NestedCallsExtend }
    ensures calls { CallsExtend }
    ensures runs { RunsExtend }
{}

/// An answer that extends another one refines it.
pub fn extended_refines<A>()
    ensures { ExtendedRefines A }
{}

/// A run of a greater bound meets stacks no less deep.
pub fn deepest_grows()
    ensures { DeepestGrows }
{}

/// The bytes that are taken are the first of the input, and the input that is left is the rest.
pub fn input_is_taken()
    ensures expressions { ExpressionsTakeInput }
    ensures statements { StatementsTakeInput }
    ensures nested { NestedCallsTakeInput }
    ensures calls { CallsTakeInput }
    ensures runs { RunsTakeInput }
{}

/// What was heard of a run is its output, the input that it did not take, and its ending, and is
/// undefined exactly where the run is. No run returns. A greater bound only extends what is heard.
pub fn heard_is_run()
    ensures agrees { HeardIsRun }
    ensures undefined { HeardIsUndefined }
    ensures extends { HeardExtends }
{}
