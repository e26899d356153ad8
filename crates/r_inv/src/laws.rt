//! Invariant value redirection keeps meaning.

ghost use Rattle.r_inv.specs.Laws.{InvReplaces, InvIsAStep};

/// A changed region of a well-formed lambda may replace the old one; the rule at a node of a
/// well-formed lambda is a step, whatever lambdas are held.
pub fn inv_keeps_meaning()
    ensures replaces { InvReplaces }
    ensures step { InvIsAStep }
{}
