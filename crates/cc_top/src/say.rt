//! Answers on the output.

ghost use Rattle.std.specs.Prelude.{◌≡◌, ℕ, take, OnOk, OnErr};
ghost use Rattle.cc_io.specs.Faults.{HasCause};
ghost use Rattle.cc_io.specs.Sink.{append};
ghost use Rattle.cc_top.specs.Answers.{line_of};

use crate::answer::{Answer, line_of};
use cc_io::{Failed, Sink, write_all};

/// Writes the line of an answer, and has it handed over at once.
pub(crate) fn say<O: Sink>(output: &mut O, answer: Answer) -> Result<(), Failed>
    ensures ok { OnOk result (O.held output.new ≡ append (O.held output.old) (line_of answer)) }
    ensures err { OnErr result ((count : ℕ)
        × (O.held output.new ≡ append (O.held output.old) (take count (line_of answer)))) }
    ensures cause { HasCause (O.faults output.old) (O.faults output.new) result }
{
    write_all(output, line_of(answer).as_bytes())?;
    output.flush();
    Ok(())
}
