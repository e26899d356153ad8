//! Pull keeps meaning.

ghost use Rattle.r_pull.specs.Laws.{PullReplaces, PullIsAStep};

/// A changed region of a well-formed lambda may replace the old one; the rule at a node of a
/// well-formed lambda is a step, whatever lambdas are held.
pub fn pull_keeps_meaning()
    ensures replaces { PullReplaces }
    ensures step { PullIsAStep }
{}
