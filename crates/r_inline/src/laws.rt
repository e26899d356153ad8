//! Inlining keeps meaning.

ghost use Rattle.r_inline.specs.Laws.{InlineReplaces, InlineIsAStep};

/// A changed region of a well-formed lambda may replace the old one in lambdas that have the
/// callee; the rule at a node of a well-formed lambda is a step where the callee is held.
pub fn inline_keeps_meaning()
    ensures replaces { InlineReplaces }
    ensures step { InlineIsAStep }
{}
