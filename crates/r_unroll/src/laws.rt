//! Unrolling keeps meaning.

ghost use Rattle.r_unroll.specs.Laws.{UnrolledRegionsTakeTwoTurns, UnrolledTurnsRefine, UnrollReplaces, UnrollIsAStep};

/// An unrolled region does a turn and then, where the predicate is not 0, a second one. So at most
/// n turns are within n unrolled turns, and at most n unrolled turns within 2n turns; no stacks are
/// deeper.
pub fn unrolled_turns_refine()
    ensures region { UnrolledRegionsTakeTwoTurns }
    ensures turns { UnrolledTurnsRefine }
{}

/// A changed region of a well-formed lambda may replace the old one; the rule at a node of a
/// well-formed lambda is a step, whatever lambdas are held.
pub fn unroll_keeps_meaning()
    ensures replaces { UnrollReplaces }
    ensures step { UnrollIsAStep }
{}
