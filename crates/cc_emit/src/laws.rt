//! Laws of images, for the proofs of the crates above: each is the contract of a function that does
//! nothing.

ghost use Rattle.cc_emit.specs.Images.{ImagesKeepMeaning};

/// The image of every program within the limits, in each form of code, does on the machine what its lambdas do, on every
/// input of bytes on which no bound makes them undefined: it loads, and does so bounded run for
/// bounded run both ways, or stops for want of stack after a beginning of their output, where the
/// frames of some stack of calls need more than the stack has.
pub fn images_keep_meaning()
    ensures { ImagesKeepMeaning }
{
    s_select_keeps::laws::programs_are_kept();
    a_place_keeps::laws::sequenced_functions_agree();
    a_place_keeps::laws::sequenced_shared_agree();
    s_sequence_keeps::laws::runs_are_within_each_other();
    crate::image_laws::program_loads();
    crate::image_laws::image_is_placed();
    elf_file::laws::loaded_is_sound();
    s_select_keeps::global_laws::globals_are_shown();
}
