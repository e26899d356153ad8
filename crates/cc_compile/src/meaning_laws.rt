//! Laws of the meaning of images, for the proofs of the crates above: each is the contract of a
//! function that does nothing.

ghost use Rattle.cc_compile.specs.ConstantExits.{ConstantExits};
ghost use Rattle.cc_compile.specs.MeaningLaws.{AcceptedSourcesKeepMeaning, RecipesKeepMeaning, SomeAnswersHaveMeaning, SomeAnswersKeepMeaning};

/// The image of a source of bytes that is accepted keeps the meaning of its program.
pub fn accepted_sources_keep_meaning()
    ensures { AcceptedSourcesKeepMeaning }
{
    cc_source::meaning_laws::kept_lists_keep_meaning();
    g_pass_def::laws::steps_keep_lists();
}

/// The image of such a source under a recipe keeps the meaning of its program, whatever the recipe.
pub fn recipes_keep_meaning()
    ensures { RecipesKeepMeaning }
{
    cc_source::meaning_laws::kept_lists_keep_meaning();
    cc_source::accepted_laws::checked_are_well_typed();
    g_build_keeps::graph_laws::well_typed_are_built();
    g_pass::meaning_laws::answers_keep_lists();
}

/// For every such source, every recipe and every set of functions that has what each of its members
/// calls in other units, the list with the answers of the set and the built lambdas of the others
/// means what the source means, call for call, and so does its image.
pub fn some_answers_keep_meaning()
    ensures calls { SomeAnswersHaveMeaning }
    ensures images { SomeAnswersKeepMeaning }
{
    cc_source::meaning_laws::kept_lists_have_meaning();
    cc_source::meaning_laws::kept_lists_keep_meaning();
    cc_source::accepted_laws::checked_are_well_typed();
    g_build_keeps::graph_laws::well_typed_are_built();
    g_pass::meaning_laws::rules_are_steps();
    g_pass_def::laws::answers_keep_lists();
}

/// The image of the program that returns a constant ends with its low byte after 23 instructions,
/// or 24, whatever the input: how many instructions a run takes is what the other laws leave open.
pub fn constant_exits()
    ensures { ConstantExits }
{
    elf_file::laws::loaded_is_sound();
}
