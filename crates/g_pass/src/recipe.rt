//! Recipes, and how their texts are read.

ghost use Rattle.std.specs.Prelude.{◌≡◌, ◌≢◌, ◌≤◌, ◌<◌, ◌++◌, ◌∷◌, [], List, IfSome, IfNone, length};
ghost use Rattle.base.specs.Limits.{most_sweeps};
ghost use Rattle.r_rule.specs.declared.steps.Rule.{Rule};
ghost use Rattle.g_pass.specs.Recipe.{recipe_text};

use crate::names::{after, first_rule};
use base::MOST_SWEEPS;
use r_rule::Rule;
use std::marker::Model;

/// A recipe: the rules of its sweeps, in order, at most `MOST_SWEEPS`. Contracts see the list. It
/// takes no memory.
#[derive(Debug, Drop)]
pub struct Recipe {
    rules: [Rule; MOST_SWEEPS],
    len: usize,
}

impl Model for Recipe {
    ghost use Rattle.std.specs.Prelude.{List, take, ◌≤◌};
    ghost use Rattle.base.specs.Limits.{most_sweeps};
    ghost use Rattle.r_rule.specs.declared.steps.Rule.{Rule};

    ghost Value = { List Rule };

    ghost view = { λ r. take r.len r.rules };

    ghost invariant = { λ r. r.len ≤ most_sweeps };
}

impl Recipe {
    /// The recipe of this text: `none`, or 1 to `MOST_SWEEPS` names of rules that are joined by
    /// commas; none for every other text. It takes no memory.
    pub fn read(text: &str) -> Option<Recipe>
        ensures some { IfSome result (λ recipe. text.now ≡ recipe_text recipe) }
        ensures short { IfSome result (λ recipe. length recipe ≤ most_sweeps) }
        ensures none { IfNone result ((rules : List Rule) → length rules ≤ most_sweeps →
            text.now ≢ recipe_text rules) }
    {
        if text == "none" {
            return Some(Recipe::none());
        }
        sweeps(text.as_bytes())
    }

    /// The recipe without a sweep.
    pub fn none() -> Recipe
        ensures { result ≡ [] }
    {
        Recipe {
            rules: [Rule::Fold; MOST_SWEEPS],
            len: 0,
        }
    }

    fn push(&mut self, rule: Rule)
        requires { length self.old < most_sweeps }
        ensures { self.new ≡ self.old ++ rule ∷ [] }
    {
        self.rules[self.len] = rule;
        self.len += 1;
    }

    /// The rules of the sweeps, in order.
    pub fn as_slice(&self) -> &[Rule]
        ensures { result.now ≡ self.now }
    {
        &self.rules[..self.len]
    }
}

// The recipe of one or more names.
fn sweeps(text: &[u8]) -> Option<Recipe>
    ensures some { IfSome result (λ recipe. text.now ≡ recipe_text recipe) }
    ensures short { IfSome result (λ recipe. length recipe ≤ most_sweeps) }
    ensures none { IfNone result ((rule : Rule) (rules : List Rule) → length rules < most_sweeps →
        text.now ≢ recipe_text (rule ∷ rules)) }
{
    let mut recipe = Recipe::none();
    let mut left = text;
    for _ in 0..MOST_SWEEPS {
        let (rule, rest) = first_rule(left)?;
        recipe.push(rule);
        if rest.is_empty() {
            return Some(recipe);
        }
        left = after(rest, b",")?;
    }
    None
}
