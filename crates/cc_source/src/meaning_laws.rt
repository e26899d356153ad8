//! Laws of programs and of lists that keep their graphs, for the proofs of the crates above: each
//! is the contract of a function that does nothing.

ghost use Rattle.cc_source.specs.Laws.{BuiltProgramsKeepMeaning, KeptListsCanBeEmitted, KeptListsHaveMeaning, KeptListsKeepMeaning, ProgramsCanBeEmitted, ProgramsKeepMeaning, UnlimitedAreSmall};

/// A program that passes no limit is small enough for an image.
pub fn unlimited_are_small()
    ensures { UnlimitedAreSmall }
{}

/// The lambdas of a well-typed program that passes no limit can be put in an image, and so can
/// every list that keeps them.
pub fn programs_can_be_emitted()
    ensures graphs { ProgramsCanBeEmitted }
    ensures lists { KeptListsCanBeEmitted }
{
    g_build_keeps::graph_laws::well_typed_are_built();
    g_build_keeps::graph_laws::small_are_within_limits();
    g_pass_def::laws::kept_lists_fit_images();
}

/// The image of a well-typed program, each `switch` of which has fewer than 2^32 groups, keeps the
/// program's meaning, with the built lambdas or with others that may stand for them: on every input
/// of bytes on which no bound makes the program undefined (ISO/IEC 9899:2011, 3.4.3), it loads and
/// does what the program does, bounded run for bounded run both ways, or stops for want of stack
/// after a beginning of the program's output, where the frames of some stack of calls need more
/// than the stack has. So it does with the built lambdas, where the program is within the limits
/// of an image.
pub fn programs_keep_meaning()
    ensures lists { ProgramsKeepMeaning }
    ensures built { BuiltProgramsKeepMeaning }
{
    g_build_keeps::laws::construction_keeps_programs();
    g_build_keeps::graph_laws::well_typed_are_built();
    g_build_keeps::graph_laws::small_are_within_limits();
    r_edit::steps::lists_compose();
    cc_emit::laws::images_keep_meaning();
}

/// The image of a source of bytes that is accepted keeps the meaning of its program, with every
/// list that keeps the program's graph.
pub fn kept_lists_keep_meaning()
    ensures { KeptListsKeepMeaning }
{
    programs_keep_meaning();
    programs_can_be_emitted();
    crate::accepted_laws::checked_are_well_typed();
    crate::accepted_laws::checked_have_few_groups();
}

/// Every list that keeps the graph of the program of such a source has its meaning too: of each
/// call on sound values and a sound memory that no bound makes undefined, each bounded run of the
/// source is within a run of the list at some bound, and the other way round, with stacks of calls
/// no deeper.
pub fn kept_lists_have_meaning()
    ensures { KeptListsHaveMeaning }
{
    crate::accepted_laws::accepted_keep_meaning();
    crate::accepted_laws::checked_are_well_typed();
    g_build_keeps::graph_laws::well_typed_are_built();
    r_edit::steps::lists_compose();
}
