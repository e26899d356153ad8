//! Dead node elimination keeps meaning.

ghost use Rattle.r_dne.specs.Laws.{DneReplaces, DneIsAStep};

/// A changed region of a well-formed lambda may replace the old one; the rule at a node of a
/// well-formed lambda is a step, whatever lambdas are held.
pub fn dne_keeps_meaning()
    ensures replaces { DneReplaces }
    ensures step { DneIsAStep }
{}
