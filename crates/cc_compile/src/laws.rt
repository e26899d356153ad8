//! Laws of the composition, each the contract of a function that does nothing.

ghost use Rattle.cc_compile.specs.Compiled.{AnswersCanBeEmitted, OneImage, OneListOfRows, UnsweptImage};

/// What a recipe makes of the lambdas of a program that passes no limit can be put in an image.
pub fn answers_can_be_emitted()
    ensures { AnswersCanBeEmitted }
{
    g_build_keeps::graph_laws::well_typed_are_built();
    cc_source::meaning_laws::programs_can_be_emitted();
    g_pass::meaning_laws::answers_keep_lists();
}

/// A program has at most one image under a recipe, and one list of rows. Under the recipe without a
/// sweep the image is that of the functions as they are built.
pub fn the_image_is_determined()
    ensures one { OneImage }
    ensures rows { OneListOfRows }
    ensures unswept { UnsweptImage }
{
    g_pass_def::laws::answers_are_unique();
    g_pass_def::laws::answers_keep_lists();
}
