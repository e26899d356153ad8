//! Whether a log has the functions of a program.

ghost use Rattle.std.specs.Prelude.{◌≡◌, ◌+◌, ◌<◌, ◌^◌, IfSome, IfNone};
ghost use Rattle.g_build_def.specs.Functions.{names};
ghost use Rattle.log_check.specs.Log.{line_count, rows_of};
ghost use Rattle.log_check.specs.Judgement.{names_of_log, IsMisnamed};

use crate::LogPart;
use c_typed::Typed;

/// The first line of a function of the log whose name is not that of the program's function at its
/// place, or the line behind the last one where functions are missing; none where the log has the
/// names of the program. Its lines have 32 bits.
pub fn first_other_name(typed: &Typed, log: &[LogPart]) -> Option<u32>
    requires { line_count (rows_of log.now) + 1 < 2 ^ 32 }
    ensures some { IfSome result (λ line. IsMisnamed typed.now log.now line) }
    ensures none { IfNone result (names_of_log log.now ≡ names typed.now) }
{
    let mut line = 1;
    for index in 0..log.len() {
        if index >= typed.functions.len() {
            return Some(line);
        }
        let part = &log[index];
        let function = &typed.functions[index];
        if part.name.as_slice() != function.name.as_slice() {
            return Some(line);
        }
        line += 1 + part.steps.len() as u32;
    }
    if log.len() < typed.functions.len() {
        return Some(line);
    }
    None
}
