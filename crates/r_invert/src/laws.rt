//! Inversion keeps meaning.

ghost use Rattle.r_invert.specs.Laws.{InvertedLoopsTestFirst, InvertedLoopsRefine, InvertReplaces, InvertIsAStep};

/// An inverted loop tests, and where the test holds does turns that end with the test, and then
/// what the loop does where it fails. So at most n turns of a loop are within n turns of the
/// inverted one, and at most n turns of that within n + 1 turns; no stacks are deeper.
pub fn inverted_loops_refine()
    ensures first { InvertedLoopsTestFirst }
    ensures turns { InvertedLoopsRefine }
{}

/// A changed region of a well-formed lambda may replace the old one; the rule at a node of a
/// well-formed lambda is a step, whatever lambdas are held.
pub fn invert_keeps_meaning()
    ensures replaces { InvertReplaces }
    ensures step { InvertIsAStep }
{}
