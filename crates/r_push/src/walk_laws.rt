//! The walk.

ghost use Rattle.r_push.specs.WalkLaws.{WalkIsSweep};

/// A walk over a well-formed lambda makes the steps and the lambda of the rule's sweep.
pub fn walk_is_sweep()
    ensures { WalkIsSweep }
{
    crate::laws::push_keeps_meaning();
}
