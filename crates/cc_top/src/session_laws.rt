//! Laws of sessions, each the contract of a function that does nothing.

ghost use Rattle.cc_top.specs.SessionLaws.{SessionsLeaveTheSame};

/// Two sessions that are done, on the same known files, input and output, leave the same files and
/// output, whatever else they were asked.
pub fn sessions_leave_the_same()
    ensures { SessionsLeaveTheSame }
{
    cc_script_text::laws::the_rest_is_not_read();
    cc_source::laws::the_program_is_determined();
    g_pass_order::laws::orders_are_unique();
    cc_compile::laws::the_image_is_determined();
    cc_source::laws::the_fault_is_determined();
    cc_source::laws::accepted_is_not_refused();
}
