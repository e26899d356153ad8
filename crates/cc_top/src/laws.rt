//! The law of what a build reports, the contract of a function that does nothing.

ghost use Rattle.cc_top.specs.Laws.{ReportsCertify};

use cc_watch::{LogKeeper, Watcher};

/// What a keeper of the log that stood for no row reports of a build certifies OUT of the build.
pub fn reports_certify()
    ensures { let keeper = ⟦<LogKeeper as Watcher>⟧ in
        ReportsCertify keeper.named keeper.stands_for keeper.text_of }
{
    crate::compile_laws::logs_certify_images();
}
