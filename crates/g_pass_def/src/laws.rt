//! Laws of recipes, over any table of rules whose steps are steps: each is the contract of a
//! function that does nothing.

ghost use Rattle.g_pass_def.specs.Laws.{ListsKeepThemselves, KeepingComposes, StepsKeepLists, ReplaysAreSteps, RecipesReplay, RecipesAreSteps, ReplayedKeepLists, ReplayedAreUnique, AnswersExist, AnswersAreUnique, AnswersAreReplayed, SomeAnswersKeepLists, AnswersKeepLists, UnsweptAnswersAreLambdas, KeptListsFitImages};

use g_pass_order::laws::orders_are_unique;

/// A list of lambdas keeps itself, lists keep each other one after the other, and a step keeps each
/// list that has what the step asks for.
pub fn steps_keep_lists()
    ensures itself { ListsKeepThemselves }
    ensures next { KeepingComposes }
    ensures step { StepsKeepLists }
{}

/// What a list of steps makes of a lambda may stand for it; a recipe makes of a lambda what its
/// steps do, and so that may too.
pub fn recipes_are_steps()
    ensures replays { ReplaysAreSteps }
    ensures same { RecipesReplay }
    ensures recipes { RecipesAreSteps }
{}

/// A complete list is kept by what any steps make of it, whoever wrote them, and steps make one
/// list of it at most.
pub fn replayed_keep_lists()
    ensures kept { ReplayedKeepLists }
    ensures unique { ReplayedAreUnique }
{
    orders_are_unique();
}

/// Where a list of lambdas has an order, it has one list of answers for a recipe.
pub fn answers_are_unique()
    ensures exist { AnswersExist }
    ensures unique { AnswersAreUnique }
{
    orders_are_unique();
}

/// Answers are what their own steps make. A complete list is kept by its answers, and by the
/// answers of each set of its functions that has the deps of its members, with its own lambdas
/// elsewhere. Without a sweep the answers are the lambdas.
pub fn answers_keep_lists()
    ensures replayed { AnswersAreReplayed }
    ensures some { SomeAnswersKeepLists }
    ensures all { AnswersKeepLists }
    ensures unswept { UnsweptAnswersAreLambdas }
{
    orders_are_unique();
}

/// Lambdas that keep those of an image are those of an image, where these are few enough.
pub fn kept_lists_fit_images()
    ensures { KeptListsFitImages }
{}
