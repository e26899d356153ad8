//! Laws of judgements, each the contract of a function that does nothing.

ghost use Rattle.log_check.specs.JudgeLaws.{CertifiedHaveNoFault, CertifiedOrFaulty, ImagesAreShort, OneJudgeFault};

use cc_source::meaning_laws::programs_can_be_emitted;

/// A source, a log and an image have one fault at most, out of memory apart, and none exactly where
/// the log certifies the image.
pub fn faults_are_first()
    ensures one { OneJudgeFault }
    ensures none { CertifiedHaveNoFault }
    ensures some { CertifiedOrFaulty }
{
    cc_source::laws::accepted_or_refused();
    cc_source::laws::the_program_is_determined();
    cc_source::laws::the_fault_is_determined();
    cc_source::laws::accepted_is_not_refused();
    crate::laws::texts_have_one_reading();
    crate::laws::texts_break_at_one_line();
    crate::replay_laws::faults_are_first();
}

/// The image that the steps of a log lead to has at most `MOST_IMAGE_BYTES` bytes, where the source
/// is accepted.
pub fn images_are_short()
    ensures { ImagesAreShort }
{
    cc_source::accepted_laws::checked_are_well_typed();
    programs_can_be_emitted();
    g_pass::meaning_laws::rules_are_steps();
    g_pass_def::laws::replayed_keep_lists();
    cc_emit::image_laws::program_loads();
}
