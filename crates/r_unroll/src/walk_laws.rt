//! The rule in a walk.

ghost use Rattle.r_unroll.specs.WalkLaws.{UnrollIsLocal};

/// What the rule makes of a well-formed lambda is well formed, and of each node it makes what a
/// walk is told.
pub fn unroll_is_local()
    ensures { UnrollIsLocal }
{
    crate::laws::unroll_keeps_meaning();
}
