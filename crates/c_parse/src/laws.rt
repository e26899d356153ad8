//! Laws of the parser's answers: each function has one as its contract, and does nothing.

ghost use Rattle.c_parse.specs.Refusal.{OneAnswer, ShapedIsAccepted};

/// Two answers on the same tokens are the same, unless memory ran out.
pub fn the_answer_is_determined()
    ensures { OneAnswer }
{}

/// On what a shaped tree spells the parser answers that tree, unless memory runs out.
pub fn shaped_trees_are_accepted()
    ensures { ShapedIsAccepted }
{}
