//! Laws of what a source is compiled to, each the contract of a function that does nothing.

ghost use Rattle.cc_top.specs.CompileLaws.{LogsCertifyImages};

/// The log of an accepted source's rows certifies its image, under every recipe of at most
/// `MOST_SWEEPS` sweeps: its lines name the functions, the counts are those of their lambdas, its
/// steps make the lambdas that the image is of, and it is not too long to be read.
pub fn logs_certify_images()
    ensures { LogsCertifyImages }
{
    cc_source::accepted_laws::tokens_are_in_range();
    cc_source::accepted_laws::checked_are_well_typed();
    c_check_laws::name_laws::functions_have_names();
    g_build_keeps::graph_laws::well_typed_are_built();
    g_build_keeps::number_laws::numbers_count_nodes();
    cc_source::meaning_laws::programs_can_be_emitted();
    g_pass_order::laws::orders_are_unique();
    g_pass_def::laws::answers_keep_lists();
    g_pass::meaning_laws::answers_keep_lists();
    g_pass::step_laws::answers_have_few_steps();
}
