//! The law of how `check` ends, the contract of a function that does nothing.

ghost use Rattle.cc_top.specs.CheckEnds.{CertifiedIsTold};

/// Where a call did not fail, a log that certifies the image is told to, or memory ran out.
pub fn certified_is_told()
    ensures { CertifiedIsTold }
{
    cc_source::refusal_laws::accepted_sources_are_not_refused();
    log_check::judge_laws::faults_are_first();
}
