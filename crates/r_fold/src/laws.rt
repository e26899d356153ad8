//! Folding keeps meaning.

ghost use Rattle.r_fold.specs.Laws.{FoldReplaces, FoldIsAStep};

/// A folded region of a well-formed lambda may replace it; folding a well-formed lambda at a node is
/// a step, whatever lambdas are held.
pub fn fold_keeps_meaning()
    ensures replaces { FoldReplaces }
    ensures step { FoldIsAStep }
{}
