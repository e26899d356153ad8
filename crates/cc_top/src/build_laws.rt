//! Laws of the definitions, each the contract of a function that does nothing.

ghost use Rattle.cc_top.specs.BuildEnds.{OneBuild};

/// Two builds that are done leave the same files, where they begin with the same and are of one
/// source under one recipe to one name: whatever the number of workers, the order of their steps
/// and the report.
pub fn builds_leave_the_same_files()
    ensures { OneBuild }
{
    cc_source::laws::the_program_is_determined();
    cc_compile::laws::the_image_is_determined();
}
