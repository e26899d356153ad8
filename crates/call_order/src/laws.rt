//! Laws of units and ranks, for the proofs of callers: each is the contract of a function that does
//! nothing.

ghost use Rattle.call_order.specs.Laws.{CalleeRanksBelow, UnitsAreMutual, UnitsAreUnique};

/// A function that is called from outside its unit has a smaller rank.
pub fn callee_ranks_below()
    ensures { CalleeRanksBelow }
{}

/// Functions are of one unit exactly where calls lead from one to the other and back.
pub fn units_are_mutual()
    ensures { UnitsAreMutual }
{}

/// There are no other units and ranks of the same calls.
pub fn units_are_unique()
    ensures { UnitsAreUnique }
{}
