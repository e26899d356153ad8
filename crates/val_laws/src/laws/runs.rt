//! Laws of the relation between the answers of two sides, and of one run within another.

ghost use Rattle.val_core.specs.Refinement.{exactly, no_deeper};
ghost use Rattle.val_core.specs.RunLaws.{RefinesThen, RefinesActive, ForwardIsWithin, BackwardIsWithin, BackwardIsDefined, BackwardIsNoDeeper, WithinItself, WithinComposes, TerminatedIsEqual, FailedIsApart};

/// How a result of a side nearer to the source relate to one of a side farther from it.
pub trait Related<Far> {
    ghost relate: { Self → Far → Type 0 };
}

/// What follows on answers that refine refines.
pub fn refines_then<A: Related<B>, B, C: Related<D>, D>()
    ensures exact { RefinesThen exactly A B C D A.relate C.relate }
    ensures deep { RefinesThen no_deeper A B C D A.relate C.relate }
{}

/// Calls of one function whose bodies refine refine.
pub fn refines_active<A: Related<B>, B>()
    ensures exact { RefinesActive exactly A B A.relate }
    ensures deep { RefinesActive no_deeper A B A.relate }
{}

/// Where the nearer side is cut first and neither is undefined, it is within the farther one.
pub fn forward_is_within<A: Related<B>, B>()
    ensures exact { ForwardIsWithin exactly A B A.relate }
    ensures deep { ForwardIsWithin no_deeper A B A.relate }
{}

/// Where the farther side is cut first and the nearer one is defined, the farther one is within it.
pub fn backward_is_within<A: Related<B>, B>()
    ensures exact { BackwardIsWithin exactly A B A.relate }
    ensures deep { BackwardIsWithin no_deeper A B A.relate }
{}

/// Where the farther side is cut first and the nearer one is defined, so is the farther one.
pub fn backward_is_defined<A: Related<B>, B>()
    ensures exact { BackwardIsDefined exactly A B A.relate }
    ensures deep { BackwardIsDefined no_deeper A B A.relate }
{}

/// Where the farther side is cut first and the nearer one is defined, the farther one meets no
/// deeper stacks.
pub fn backward_is_no_deeper<A: Related<B>, B>()
    ensures exact { BackwardIsNoDeeper exactly A B A.relate }
    ensures deep { BackwardIsNoDeeper no_deeper A B A.relate }
{}

/// A run that has not failed is within itself.
pub fn within_itself<A>()
    ensures { WithinItself A }
{}

/// A run within a run within a run is within it, where the relations of their results compose.
pub fn within_composes<A: Related<B> + Related<C>, B: Related<C>, C>()
    ensures { WithinComposes A B C ⟦<A as Related<B>>⟧.relate B.relate ⟦<A as Related<C>>⟧.relate }
{}

/// An ended run is within none but one with its output and status.
pub fn terminated_is_equal<A: Related<B>, B>()
    ensures { TerminatedIsEqual A B A.relate }
{}

/// Nothing is within a run that failed, and it is within nothing.
pub fn failed_is_apart<A: Related<B>, B>()
    ensures { FailedIsApart A B A.relate }
{}
