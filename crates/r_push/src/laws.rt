//! Push keeps meaning.

ghost use Rattle.r_push.specs.Laws.{PushReplaces, PushIsAStep};

/// A changed region of a well-formed lambda may replace the old one; the rule at a node of a
/// well-formed lambda is a step, whatever lambdas are held.
pub fn push_keeps_meaning()
    ensures replaces { PushReplaces }
    ensures step { PushIsAStep }
{}
