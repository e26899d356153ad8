//! The names of rules at the beginning of a text.

ghost use Rattle.std.specs.Prelude.{◌≡◌, ◌≢◌, ◌++◌, ℕ, List, IfSome, IfNone};
ghost use Rattle.r_rule.specs.declared.steps.Rule.{Rule};
ghost use Rattle.r_rule.specs.Names.{rule_name};

use r_rule::{Rule, all_rules, rule_name};

/// What follows a beginning of a text; none where the text does not begin so.
pub fn after<'a>(text: &'a [u8], beginning: &[u8]) -> Option<&'a [u8]>
    ensures some { IfSome result (λ rest. text.now ≡ beginning.now ++ rest.now) }
    ensures none { IfNone result ((rest : List ℕ) → text.now ≢ beginning.now ++ rest) }
{
    text.strip_prefix(beginning)
}

/// The rule whose name a text begins with, and what follows the name; none where it begins with no
/// name of a rule.
pub fn first_rule(text: &[u8]) -> Option<(Rule, &[u8])>
    ensures some { IfSome result (λ found. text.now ≡ rule_name found.0 ++ found.1.now) }
    ensures none { IfNone result ((k : Rule) (rest : List ℕ) → text.now ≢ rule_name k ++ rest) }
{
    for rule in &all_rules() {
        if let Some(rest) = after(text, rule_name(*rule).as_bytes()) {
            return Some((*rule, rest));
        }
    }
    None
}
