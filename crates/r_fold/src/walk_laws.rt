//! The rule in a walk.

ghost use Rattle.r_fold.specs.WalkLaws.{FoldIsLocal};

/// What the rule makes of a well-formed lambda is well formed, and of each node it makes what a
/// walk is told.
pub fn fold_is_local()
    ensures { FoldIsLocal }
{
    crate::laws::fold_keeps_meaning();
}
