//! Laws of recipes of the rules.

ghost use Rattle.g_pass.specs.MeaningLaws.{RulesAreSteps, RulesKeepMeaning, AnswersKeepLists, AnswersFitImages};

/// Each rule makes a step: wherever it applies to a well-formed lambda, given well-formed callees,
/// the changed lambda may stand for the old one in every list that has these callees.
pub fn rules_are_steps()
    ensures { RulesAreSteps }
{
    r_fold::laws::fold_keeps_meaning();
    r_cne::laws::cne_keeps_meaning();
    r_dne::laws::dne_keeps_meaning();
    r_inv::laws::inv_keeps_meaning();
    r_push::laws::push_keeps_meaning();
    r_pull::laws::pull_keeps_meaning();
    r_invert::laws::invert_keeps_meaning();
    r_unroll::laws::unroll_keeps_meaning();
    r_inline::laws::inline_keeps_meaning();
}

/// Where a rule changes one well-formed lambda of a list, every function keeps its meaning, and so
/// does every program: on starts on which no bound of the list is undefined, each run at n is within
/// one of the other list at 2n + 2, both ways, and no stacks are deeper. Inlining takes its callee
/// from the list.
pub fn rules_keep_meaning()
    ensures { RulesKeepMeaning }
{
    r_fold::laws::fold_keeps_meaning();
    r_cne::laws::cne_keeps_meaning();
    r_dne::laws::dne_keeps_meaning();
    r_inv::laws::inv_keeps_meaning();
    r_push::laws::push_keeps_meaning();
    r_pull::laws::pull_keeps_meaning();
    r_invert::laws::invert_keeps_meaning();
    r_unroll::laws::unroll_keeps_meaning();
    r_inline::laws::inline_keeps_meaning();
}

/// What the functions of a complete list are made into under a recipe may stand for them: every
/// function keeps its meaning, and so does every program, and each lambda keeps its number, its
/// parameters and its objects, and has at most `MOST_GROWN_VALUES` values or no more than before.
/// Where the list is that of an image, and small enough, the made one is that of an image too.
pub fn answers_keep_lists()
    ensures lists { AnswersKeepLists }
    ensures images { AnswersFitImages }
{
    rules_are_steps();
    g_pass_def::laws::answers_keep_lists();
    g_pass_def::laws::kept_lists_fit_images();
}
