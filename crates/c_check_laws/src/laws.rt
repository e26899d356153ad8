//! Laws of the checker, for the proofs of the crates above: each is the contract of a function
//! that does nothing.

ghost use Rattle.c_check_def.specs.CheckLaws.{AcceptedAreWellTyped};
ghost use Rattle.c_check_laws.specs.OperatorLaws.{ValuesAreTyped, ConversionsAreTyped, UnaryAreTyped, StepsAreTyped, MembersAreTyped, CastsAreTyped, SizesAreTyped, BinaryAreTyped, IndexesAreTyped, AssignmentsAreTyped, ConditionalsAreTyped};

/// What the operator rules make of typed operands is typed: values, conversions, and what each
/// operator gives (ISO/IEC 9899:2011, 6.3, 6.5).
pub fn operators_give_typed()
    ensures values { ValuesAreTyped }
    ensures conversions { ConversionsAreTyped }
    ensures unary { UnaryAreTyped }
    ensures steps { StepsAreTyped }
    ensures members { MembersAreTyped }
    ensures casts { CastsAreTyped }
    ensures sizes { SizesAreTyped }
    ensures binary { BinaryAreTyped }
    ensures indexes { IndexesAreTyped }
    ensures assignments { AssignmentsAreTyped }
    ensures conditionals { ConditionalsAreTyped }
{}

/// What the checker accepts is well typed: for each tree that follows the grammar, with tokens in
/// range and few of them (ISO/IEC 9899:2011, 6.5 to 6.9).
pub fn accepted_are_well_typed()
    ensures { AcceptedAreWellTyped }
{
    c_type::laws::alignment_is_width();
    c_type::laws::member_is_within();
}
