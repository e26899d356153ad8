//! The rule in a walk.

ghost use Rattle.r_invert.specs.WalkLaws.{InvertIsLocal};

/// What the rule makes of a well-formed lambda is well formed, and of each node it makes what a
/// walk is told.
pub fn invert_is_local()
    ensures { InvertIsLocal }
{
    crate::laws::invert_keeps_meaning();
}
