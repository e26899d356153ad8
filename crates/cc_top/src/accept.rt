//! The command without arguments, which says whether the source on the input is accepted.

ghost use Rattle.std.specs.Prelude.{◌≡◌};
ghost use Rattle.cc_top.specs.AcceptEnds.{AcceptEnds, IsTold};
ghost use Rattle.cc_report.specs.Outcome.{accepted_text};
ghost use Rattle.cc_io.specs.Outside.{stream_seen};

use crate::compile::compile;
use base::MOST_SOURCE_BYTES;
use cc_io::load::{LoadError, load_input};
use cc_io::{Sink, Source, write_all};
use cc_report::{Line, Outcome, push_decimal, push_text};
use g_pass::Recipe;
use s_linear::CodeForm;
use std::alloc::Global;

fn accepted_line(functions: u32) -> Line
    ensures { result ≡ accepted_text functions }
{
    let mut line = Line::new();
    push_text(&mut line, b"accepted ");
    push_decimal(&mut line, functions.into());
    line.push(b'\n');
    line
}

/// Writes that a source of so many functions is accepted.
fn tell_accepted<O: Sink>(output: &mut O, functions: u32) -> Outcome
    ensures { IsTold functions result (stream_seen O.held O.faults output.old)
        (stream_seen O.held O.faults output.new) }
{
    let line = accepted_line(functions);
    match write_all(output, line.as_bytes()) {
        Ok(()) => Outcome::Done,
        Err(_) => Outcome::WriteFault,
    }
}

/// Compiles the source on the input, and writes on the output how many functions it defines.
pub fn accept<I: Source, O: Sink>(alloc: Global, input: &mut I, output: &mut O) -> Outcome
    ensures { AcceptEnds result (stream_seen I.left I.faults input.old)
        (stream_seen I.left I.faults input.new) (stream_seen O.held O.faults output.old)
        (stream_seen O.held O.faults output.new) }
{
    let text = match load_input(alloc, input, MOST_SOURCE_BYTES + 1) {
        Ok(text) => text,
        Err(LoadError::Failed) => return Outcome::ReadFault,
        Err(LoadError::NoMemory) => return Outcome::NoMemory,
    };
    match compile(alloc, &text, &Recipe::none(), CodeForm::Plain) {
        Ok(compiled) => tell_accepted(output, compiled.functions),
        Err(outcome) => outcome,
    }
}
