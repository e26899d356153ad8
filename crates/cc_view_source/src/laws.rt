//! The law of drawings after steps, the contract of a function that does nothing.

ghost use Rattle.cc_view_source.specs.Laws.{AllStepsMakeTheAnswer};

/// What is drawn after all steps of a function is its answer.
pub fn all_steps_make_the_answer()
    ensures { AllStepsMakeTheAnswer }
{
    g_pass_def::laws::recipes_are_steps();
}
