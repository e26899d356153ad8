//! Laws of the steps that recipes take, each the contract of a function that does nothing.

ghost use Rattle.g_pass.specs.StepLaws.{AnswersHaveFewSteps, RulesKeepNumbers};

/// Where a rule applies to a well-formed lambda whose next number has 32 bits, the next number of
/// the changed lambda has 32 bits too.
pub fn rules_keep_numbers()
    ensures { RulesKeepNumbers }
{}

/// In each answer of a complete list whose next numbers have 32 bits, the steps are at nodes whose
/// numbers have 32 bits, and there are at most half as many of them for each sweep as the lambda
/// can have values.
pub fn answers_have_few_steps()
    ensures { AnswersHaveFewSteps }
{
    rules_keep_numbers();
    g_pass_order::laws::orders_are_unique();
    crate::meaning_laws::rules_are_steps();
    crate::meaning_laws::answers_keep_lists();
}
