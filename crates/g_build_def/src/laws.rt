//! Laws of construction, for the proofs of the crates above: each is the contract of a function
//! that does nothing.

ghost use Rattle.g_build_def.specs.Laws.{ExpressionsKeepShape, DeclarationsBringIntoScope, StatementsKeepShape, ItemsKeepShape, LambdasStandAtTheirNumbers, GlobalsStandAtTheirNumbers, GlobalsHaveTheirSize, ValuesAreOfTheFunction};

/// Numbers only grow, and the variables in scope stay the same but for their origins: after an
/// expression, a statement and a block, while a declaration adds its variable.
pub fn shape_is_kept()
    ensures expressions { ExpressionsKeepShape }
    ensures declarations { DeclarationsBringIntoScope }
    ensures statements { StatementsKeepShape }
    ensures items { ItemsKeepShape }
{}

/// The lambda of each function and what is made of each global stand at its number, and a global
/// has as many bytes as its type.
pub fn programs_are_by_number()
    ensures lambdas { LambdasStandAtTheirNumbers }
    ensures globals { GlobalsStandAtTheirNumbers }
    ensures sizes { GlobalsHaveTheirSize }
{}

/// How many values a function's lambda has depends on the function alone, not on which one is
/// `main`.
pub fn values_are_of_the_function()
    ensures { ValuesAreOfTheFunction }
{}
