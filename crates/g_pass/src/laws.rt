//! Laws of the texts of recipes and of sweeps, each the contract of a function that does nothing.

ghost use Rattle.g_pass.specs.Fast.{SweepsAreFolds};
ghost use Rattle.g_pass.specs.Recipe.{OneRecipe};

/// No two recipes have one text.
pub fn texts_have_one_recipe()
    ensures { OneRecipe }
{}

/// A sweep of a rule that looks at its lambda alone is the fold of its test and its change over the
/// numbers that the lambda has at the start.
pub fn sweeps_are_folds()
    ensures { SweepsAreFolds }
{}
