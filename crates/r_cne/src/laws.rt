//! Common node elimination keeps meaning.

ghost use Rattle.r_cne.specs.Laws.{CneMeansTheSame, CneReplaces, CneIsAStep};

/// A changed region of a well-formed lambda gives the very same answers at every bound, and may
/// replace the old one; the rule at a node of a well-formed lambda is a step, whatever lambdas are
/// held.
pub fn cne_keeps_meaning()
    ensures same { CneMeansTheSame }
    ensures replaces { CneReplaces }
    ensures step { CneIsAStep }
{}
