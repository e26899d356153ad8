//! Laws of accepted sources, for the proofs of the crates above: each is the contract of a function
//! that does nothing.

ghost use Rattle.cc_source.specs.SourceLaws.{AcceptedKeepMeaning, CheckedAreWellTyped, CheckedHaveFewGroups, TokensAreInRange};

/// The tokens of a source of bytes have words for numbers, and bytes for characters (ISO/IEC
/// 9899:2011, 6.4.4, 6.4.5).
pub fn tokens_are_in_range()
    ensures { TokensAreInRange }
{
    c_lex::laws::tokens_are_longest();
}

/// The program that the checker makes of the tree of a source of bytes is well typed, and within
/// the limits 1 to 4 of programs.
pub fn checked_are_well_typed()
    ensures { CheckedAreWellTyped }
{
    c_lex::laws::tokens_are_longest();
    tokens_are_in_range();
    c_check_laws::laws::accepted_are_well_typed();
}

/// The program that the checker makes of the tree of a source of bytes has fewer than 2^32 groups
/// in each `switch` (ISO/IEC 9899:2011, 6.8.4.2): each group has a token, and the tokens of a
/// source are at most 200,000.
pub fn checked_have_few_groups()
    ensures { CheckedHaveFewGroups }
{
    c_lex::laws::tokens_are_longest();
    tokens_are_in_range();
    c_type::laws::alignment_is_width();
    c_type::laws::member_is_within();
}

/// The graph of an accepted source means what the source means, where no bound makes it undefined
/// (ISO/IEC 9899:2011, 3.4.3). So it is of each call of a function, on sound values and a sound
/// memory, and of the program from its start on every input of bytes: each bounded run of the
/// source is within a run of the graph at some bound, each bounded run of the graph is within a
/// run of the source at some bound, and it meets stacks of calls no deeper.
pub fn accepted_keep_meaning()
    ensures { AcceptedKeepMeaning }
{
    checked_are_well_typed();
    checked_have_few_groups();
    g_build_keeps::laws::construction_keeps_meaning();
    g_build_keeps::laws::construction_keeps_programs();
}
