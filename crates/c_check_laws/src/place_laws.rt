//! Laws of the places of broken rules and of globals, each the contract of a function that does
//! nothing.

ghost use Rattle.c_check_laws.specs.PlaceLaws.{BreaksStandAtTokens, GlobalsStandInOrder, LaterBreaksStandLater};

/// A rule that a declaration breaks is reported at a token of it, whatever is known where it begins
/// (ISO/IEC 9899:2011, 6.9).
pub fn breaks_stand_at_tokens()
    ensures { BreaksStandAtTokens }
{}

/// The first declaration that breaks a rule decides, and no later one would break one at a lesser
/// place, whatever is known where it begins.
pub fn later_breaks_stand_later()
    ensures { LaterBreaksStandLater }
{}

/// The globals of an accepted source stand in order of place: its variables at file scope, each at
/// its name, and its string literals, each at its first token.
pub fn globals_stand_in_order()
    ensures { GlobalsStandInOrder }
{
    c_lex::laws::tokens_are_longest();
}
