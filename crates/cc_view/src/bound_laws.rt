//! The laws of programs whose stack is bounded, each the contract of a function that does nothing.

ghost use Rattle.cc_view.specs.Suffices.{BoundedListsSuffice, BoundedStacksSuffice};

/// Where the depth of `main` is at most the size of the stack, with the frames of a list of lambdas
/// that keeps the graph of a source of bytes, the image of the source with that list does not run
/// out of stack: on every input of bytes on which no bound makes the program undefined (ISO/IEC
/// 9899:2011, 3.4.3), however long it runs.
pub fn bounded_lists_suffice()
    ensures { BoundedListsSuffice }
{
    crate::depth_laws::stacks_are_bounded();
    g_build_keeps::laws::construction_keeps_programs();
    g_build_keeps::graph_laws::well_typed_are_built();
    cc_emit::laws::images_keep_meaning();
    cc_source::accepted_laws::checked_are_well_typed();
    cc_source::accepted_laws::checked_have_few_groups();
    cc_source::meaning_laws::programs_can_be_emitted();
}

/// So it is with the lambdas that a recipe makes, whatever the recipe.
pub fn bounded_stacks_suffice()
    ensures { BoundedStacksSuffice }
{
    bounded_lists_suffice();
    cc_source::accepted_laws::checked_are_well_typed();
    g_build_keeps::graph_laws::well_typed_are_built();
    g_pass::meaning_laws::answers_keep_lists();
}
