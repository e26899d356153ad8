//! The report of how a command ended.

ghost use Rattle.cc_report.specs.Report.{IsReported};
ghost use Rattle.cc_view.specs.ViewEnds.{said_of};

use cc_io::{Sink, write_all};
use cc_report::{Ending, Outcome, tell};

const USAGE: &[u8] =
    b"usage: rvcc-view graph IN [--recipe LIST] [--function NAME] [--after K] [--form dot|rows]
       rvcc-view steps IN [--recipe LIST]
       rvcc-view listing IN [--recipe LIST]
       rvcc-view explain IN [--recipe LIST]
";

// The status of the usage text, and that of a report that was not written.
const NO_COMMAND: u8 = 1;

const NOT_WRITTEN: u8 = 3;

/// Writes what is said of the end of a command, and gives the status of the call: that of the
/// outcome, or 3 where the report was not written.
pub fn tell_ended<E: Sink>(report: &mut E, ended: Outcome) -> u8
    ensures { IsReported ended (said_of ended) result
        (E.held report.old) (E.held report.new) (E.faults report.old) (E.faults report.new) }
{
    match ended {
        Outcome::Usage => match write_all(report, USAGE) {
            Ok(()) => NO_COMMAND,
            Err(_) => NOT_WRITTEN,
        },
        _ => tell(report, &Ending::Line(ended)),
    }
}
