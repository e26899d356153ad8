//! The program `rvcc-view`: it hands the real files and streams to the call that shows. Those are
//! the arguments of the command line, the files of the working folder and the standard streams. It
//! ends with the status of the call; how a command ended goes to standard error.
#![tactic(auto)]

mod descriptors;

use cc_io::{BufferedSink, Buffering, DirFiles, Sink, StdSink, write_all};
use cc_view::view;
use descriptors::open_closed;
use std::alloc::{AllocError, Global};
use std::env;
use std::io::{ErrorKind, IsTerminal};
use std::process::ExitCode;
use std::rt::Env;

/// The status where memory ran out before the call, which has the same for its own.
const NO_MEMORY: u8 = 6;

/// The status where the output or the report was not written.
const NOT_WRITTEN: u8 = 3;

/// Two empty arguments, which are no command.
fn no_command(alloc: Global) -> Result<Vec<String>, AllocError> {
    Ok(Vec::from_array(alloc, [String::new(alloc), String::new(alloc)])?)
}

/// The arguments of the command line, the program's name first, or no command where one of them is
/// no text.
fn words_of(rt: &(impl Env + AllocGlobal)) -> Result<Vec<String>, AllocError> {
    match env::args(rt) {
        Ok(words) => words.collect(rt.alloc()),
        Err(error) if error.kind() == ErrorKind::OutOfMemory => Err(AllocError),
        Err(_) => no_command(rt.alloc()),
    }
}

/// When the output hands over what is written: after each line where somebody reads along.
fn buffering_of(output: &impl IsTerminal) -> Buffering {
    if output.is_terminal() {
        Buffering::Line
    } else {
        Buffering::Full
    }
}

/// Carries out the command of the arguments. The status is that of the command, or `NOT_WRITTEN`
/// where some of its output was not handed over.
fn run(rt: &HostRuntime) -> Result<u8, AllocError> {
    let words = words_of(rt)?;
    let mut files = DirFiles::new(rt.alloc(), rt, ".")?;
    let buffering = buffering_of(&rt.stdout());
    let mut output = BufferedSink::new(StdSink::new(rt.stdout()), buffering);
    let mut report = StdSink::new(rt.stderr());
    let status = view(rt.alloc(), &words, &mut files, &mut output, &mut report);
    output.flush();
    Ok(if output.has_failed() {
        NOT_WRITTEN
    } else {
        status
    })
}

/// Writes this line on standard error, and gives the status, or `NOT_WRITTEN` where that fails.
fn report_line(rt: &HostRuntime, line: &[u8], status: u8) -> u8 {
    match write_all(&mut StdSink::new(rt.stderr()), line) {
        Ok(()) => status,
        Err(_) => NOT_WRITTEN,
    }
}

fn main(rt: HostRuntime) -> ExitCode {
    if open_closed(&rt).is_err() {
        return ExitCode::from(report_line(&rt, b"write fault\n", NOT_WRITTEN));
    }
    ExitCode::from(match run(&rt) {
        Ok(status) => status,
        Err(_) => report_line(&rt, b"memory\n", NO_MEMORY),
    })
}
