//! The law of the walk.

ghost use Rattle.r_pull.specs.WalkLaws.{PullWalksAreSweeps};

/// A walk over a well-formed lambda makes the steps and the lambda that the rule's sweep makes.
pub fn pull_walks_are_sweeps()
    ensures { PullWalksAreSweeps }
{
    crate::laws::pull_keeps_meaning();
}
