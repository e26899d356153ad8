//! The recipe of a text.

ghost use Rattle.std.specs.Prelude.{List, IfSome, IfNone};
ghost use Rattle.r_rule.specs.declared.steps.Rule.{Rule};
ghost use Rattle.cc_compile.specs.RecipeText.{IsTextOf};

use g_pass::Recipe;

/// The recipe of a text; none where it is of no recipe. It takes no memory.
#[tactic(auto, using(crate::proofs::RecipeTexts::no_recipe))]
pub fn recipe_of(text: &str) -> Option<Recipe>
    ensures some { IfSome result (λ recipe. IsTextOf recipe text.now) }
    ensures none { IfNone result ((recipe : List Rule) → IsTextOf recipe text.now → ⊥) }
{
    Recipe::read(text)
}
