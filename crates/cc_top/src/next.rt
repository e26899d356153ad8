//! The next command of a script.

ghost use Rattle.std.specs.Prelude.{◌≡◌, ◌<◌, ◌≤◌, suc, IfOk, IfErr, OnOk};
ghost use Rattle.cc_script_text.specs.Script.{first, most_commands};
ghost use Rattle.cc_script_text.specs.Taken.{commands_read, left_of, read_ahead, TakesCommand};
ghost use Rattle.cc_top.specs.Steps.{IsNoNext};

use cc_io::Source;
use cc_report::Outcome;
use cc_script_text::{Command, ScriptFault, ScriptReader};
use std::alloc::Global;

/// The next command of a script, or how the session ends that reads none.
pub(crate) fn next<I: Source>(
    alloc: Global,
    reader: &mut ScriptReader,
    input: &mut I,
) -> Result<Command, Outcome>
    requires few { commands_read reader.old ≤ most_commands }
    ensures command { IfOk result (λ command. TakesCommand first command
        (left_of reader.old (I.left input.old)) (left_of reader.new (I.left input.new))) }
    ensures given { OnOk result (commands_read reader.old < most_commands) }
    ensures count { OnOk result (commands_read reader.new ≡ suc (commands_read reader.old)) }
    ensures none { IfErr result (λ e. IsNoNext e (commands_read reader.old)
        (left_of reader.old (I.left input.old)) (left_of reader.new (I.left input.new))
        (read_ahead reader.new) (I.faults input.old) (I.faults input.new)) }
    ensures faults { I.faults input.old ≤ I.faults input.new }
{
    match reader.next_command(alloc, input) {
        Ok(command) => Ok(command),
        Err(ScriptFault::Broken { number }) => Err(Outcome::Script(number)),
        Err(ScriptFault::Failed) => Err(Outcome::ReadFault),
        Err(ScriptFault::NoMemory) => Err(Outcome::NoMemory),
    }
}
