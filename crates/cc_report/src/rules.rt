//! The rules whose breach is a refusal, in words.

ghost use Rattle.std.specs.Prelude.{◌≡◌};
ghost use Rattle.cc_report.specs.Explained.{section_of, sentence_of};

use crate::RefusalKind;

/// When the rule is broken, and where: the words of docs/REPORTS.md.
#[tactic(auto, unfolding(crate::specs::Explained::sentence_of))]
pub fn sentence(kind: RefusalKind) -> &'static str
    ensures { result.now ≡ sentence_of kind }
{
    match kind {
        RefusalKind::BadByte => "a byte begins no token, blank or comment: it",
        RefusalKind::OpenComment => "a `/*` has no end: its start",
        RefusalKind::OpenText => {
            "the line or the source ends before the closing quote: the opening one"
        }
        RefusalKind::BadText => {
            "an escape is unknown or above 255, or a character constant is not one character: its start"
        }
        RefusalKind::TooWide => {
            "a decimal constant without suffix is above 2147483647, or any constant above 4294967295: its start"
        }
        RefusalKind::LongName => "a name has more than 63 bytes: its start",
        RefusalKind::Directive => {
            "a `#` is not part of a line `#include <stdio.h>` or `#include <stdlib.h>`: it"
        }
        RefusalKind::ManyTokens => {
            "there are more than 200,000 tokens: the start of the first one too many"
        }
        RefusalKind::BadNumber => "a number is none of the constants of the language: its start",
        RefusalKind::LongSource => "the source has more than 1,048,576 bytes: byte 1,048,576",
        RefusalKind::LeftOut => "a keyword of C is none of the language: it",
        RefusalKind::TooDeep => "the nesting is deeper than 200: the first token after which it is",
        RefusalKind::Syntax => {
            "no program goes on with a token, or the source ends before a program does: that token, or the end of the source"
        }
        RefusalKind::Unknown => {
            "a name, tag or member is not declared, or a called function is nowhere defined: the name"
        }
        RefusalKind::Redeclared => {
            "a name is declared twice in one scope, or a function with other types: the second name"
        }
        RefusalKind::NotAssignable => {
            "the target is constant or no object, or has no address: the operator"
        }
        RefusalKind::BadOperands => {
            "the operator does not take operands of these types: it, or the keyword of a condition"
        }
        RefusalKind::BadCall => {
            "what is called is no function, or takes other arguments: the `(`; or a function is not called: its name"
        }
        RefusalKind::NotConstant => {
            "an expression is no constant where one must stand, or no size of an array: its first token"
        }
        RefusalKind::BadInitialiser => {
            "an initialiser does not fit what it begins: its first token, or the `{` of a list with too many elements"
        }
        RefusalKind::BadType => {
            "an object, a parameter or a result may not have its type, or the type has too many bytes: the name"
        }
        RefusalKind::BadReturn => {
            "a `return` has a value that the function does not give, or none: the `return`"
        }
        RefusalKind::BadJump => {
            "there is nothing that a `break` or `continue` could leave or go on with: it"
        }
        RefusalKind::NoMain => "no `main` is defined as `int main(void)`: the end of the source",
        RefusalKind::Limit { .. } => "a limit is passed: see below",
        RefusalKind::BadLabel => {
            "a label of a `switch` has the value of another, or is a second `default`: the `case` or `default`"
        }
    }
}

/// The section of docs/LANGUAGE.md that has the rule.
#[tactic(auto, unfolding(crate::specs::Explained::section_of))]
pub fn section(kind: RefusalKind) -> &'static str
    ensures { result.now ≡ section_of kind }
{
    match kind {
        RefusalKind::BadByte => "Tokens",
        RefusalKind::OpenComment => "Tokens",
        RefusalKind::OpenText => "Tokens",
        RefusalKind::BadText => "Tokens",
        RefusalKind::TooWide => "Tokens",
        RefusalKind::LongName => "Tokens",
        RefusalKind::Directive => "Tokens",
        RefusalKind::ManyTokens => "Tokens",
        RefusalKind::BadNumber => "Tokens",
        RefusalKind::LongSource => "Tokens",
        RefusalKind::LeftOut => "Keywords",
        RefusalKind::TooDeep => "Nesting",
        RefusalKind::Syntax => "Grammar",
        RefusalKind::Unknown => "Names",
        RefusalKind::Redeclared => "Names",
        RefusalKind::NotAssignable => "Expressions",
        RefusalKind::BadOperands => "Expressions",
        RefusalKind::BadCall => "Expressions",
        RefusalKind::NotConstant => "Types",
        RefusalKind::BadInitialiser => "Initialisers",
        RefusalKind::BadType => "Types",
        RefusalKind::BadReturn => "Statements",
        RefusalKind::BadJump => "Statements",
        RefusalKind::NoMain => "Names",
        RefusalKind::Limit { .. } => "Limits of programs",
        RefusalKind::BadLabel => "Statements",
    }
}
