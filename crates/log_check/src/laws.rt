//! Laws of logs, each the contract of a function that does nothing.

ghost use Rattle.log_check.specs.Log.{LogOrBreak, LogsDoNotBreak, LogsHaveFewLines, OneBreak, OneReading};

/// Bytes are the log of one list of rows at most.
pub fn texts_have_one_reading()
    ensures { OneReading }
{}

/// Bytes break the form of logs at one line at most, and at none exactly where they are a log.
pub fn texts_break_at_one_line()
    ensures one { OneBreak }
    ensures none { LogsDoNotBreak }
    ensures some { LogOrBreak }
{}

/// A log has no more lines than bytes.
pub fn logs_have_few_lines()
    ensures { LogsHaveFewLines }
{}
