//! The rule in a walk.

ghost use Rattle.r_inline.specs.WalkLaws.{InlineIsLocal};

/// With these callees, what the rule makes of a well-formed lambda is well formed, and of each node
/// it makes what a walk is told.
pub fn inline_is_local()
    ensures { InlineIsLocal }
{
    crate::laws::inline_keeps_meaning();
}
