//! The law of walks.

ghost use Rattle.r_walk.specs.Laws.{WalksAreSweeps};

/// A walk of a rule that does at each node what it says, over a well-formed lambda, makes the steps
/// and the lambda that the rule's sweep makes.
pub fn walks_are_sweeps()
    ensures { WalksAreSweeps }
{}
