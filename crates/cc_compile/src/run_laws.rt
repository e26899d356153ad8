//! The law that ties a source's own run to its images: the contract of a function that does
//! nothing.

ghost use Rattle.cc_compile.specs.RunLaws.{ExitsAreDefined, HeardExitsAreKept, KeptFilesExit};

/// Where a source's run was heard to exit at some bound, no bound makes it undefined, and each file
/// that keeps the program's meaning exits so too, or runs out of stack after a beginning of the
/// same output: so does the image of an accepted source, under every recipe.
pub fn heard_exits_are_kept()
    ensures defined { ExitsAreDefined }
    ensures files { KeptFilesExit }
    ensures images { HeardExitsAreKept }
{
    c_mean::laws::heard_is_run();
    cc_source::meaning_laws::kept_lists_keep_meaning();
    cc_source::accepted_laws::checked_are_well_typed();
    g_build_keeps::graph_laws::well_typed_are_built();
    g_pass::meaning_laws::answers_keep_lists();
}
