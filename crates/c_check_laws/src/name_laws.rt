//! Laws of the names that the checker keeps, each the contract of a function that does nothing.

ghost use Rattle.c_check_laws.specs.NamesLaws.{FunctionsHaveNames};

/// The name of each function of an accepted source is an identifier (ISO/IEC 9899:2011, 6.4.2.1) of
/// at most `MOST_NAME_BYTES` bytes.
pub fn functions_have_names()
    ensures { FunctionsHaveNames }
{
    c_lex::laws::tokens_are_longest();
    c_type::laws::alignment_is_width();
    c_type::laws::member_is_within();
}
