//! The rules by name and in order, the steps that apply them, and what a recipe made of a lambda.
//! Promise: each rule has its name and its index in the order.
//! Always: an `Optimised` holds a well-formed lambda.
#![tactic(auto)]

mod optimised;
mod steps;

ghost use Rattle.std.specs.Prelude.{◌≡◌, ◌<◌};
ghost use Rattle.r_rule.specs.Names.{all_rules, rule_name, rule_place};

pub use optimised::{Optimised, StepList};
pub use steps::{Rule, Step};

/// The rules in the order in which a report lists them.
pub fn all_rules() -> [Rule; 9]
    ensures { result ≡ all_rules }
{
    [
        Rule::Fold,
        Rule::Cne,
        Rule::Dne,
        Rule::Inv,
        Rule::Push,
        Rule::Pull,
        Rule::Invert,
        Rule::Unroll,
        Rule::Inline,
    ]
}

/// The name of a rule in recipes and reports.
pub const fn rule_name(rule: Rule) -> &'static str
    ensures { result.now ≡ rule_name rule }
{
    match rule {
        Rule::Fold => "fold",
        Rule::Cne => "cne",
        Rule::Dne => "dne",
        Rule::Inv => "inv",
        Rule::Push => "psh",
        Rule::Pull => "pll",
        Rule::Invert => "ivt",
        Rule::Unroll => "url",
        Rule::Inline => "iln",
    }
}

/// The place of a rule in the order of reports.
pub const fn rule_place(rule: Rule) -> usize
    ensures place { result ≡ rule_place rule }
    ensures within { result < 9 }
{
    match rule {
        Rule::Fold => 0,
        Rule::Cne => 1,
        Rule::Dne => 2,
        Rule::Inv => 3,
        Rule::Push => 4,
        Rule::Pull => 5,
        Rule::Invert => 6,
        Rule::Unroll => 7,
        Rule::Inline => 8,
    }
}
