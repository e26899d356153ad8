//! The standard streams of the process, or any other reader or writer of the system.

ghost use Rattle.std.specs.Prelude.{◌≡◌, ◌≤◌, ◌<◌, None, length, IfOk};

use crate::failed::Failed;
use crate::failing::fault;
use crate::sink::Sink;
use crate::source::Source;
use crate::uninterrupted::{read_uninterrupted, write_uninterrupted};
use std::io::{Read, Write};

/// A source over a reader of the system, as standard input. What it has left is unknown.
#[derive(Drop)]
pub struct StdSource<R> {
    reader: R,
    faults: u64,
}

impl<R> StdSource<R> {
    ghost use Rattle.cc_io.specs.StdStreams.{reader_of, source_faults};

    /// As `StdSource::new(rt.stdin())`.
    pub fn new(reader: R) -> Self
        ensures reader { reader_of result ≡ reader }
        ensures faults { source_faults result ≡ 0 }
    {
        StdSource { reader, faults: 0 }
    }
}

impl<R: Read> Source for StdSource<R> {
    ghost use Rattle.std.specs.Io.KnownBytes.{ReadConsumes};
    ghost use Rattle.cc_io.specs.Faults.{HasCause};
    ghost use Rattle.cc_io.specs.StdStreams.{reader_of, source_faults};

    ghost faults = { source_faults };

    ghost left = { λ _. None };

    /// Hands on what the reader gives; an error of the reader is a fault.
    fn read(&mut self, buf: &mut [u8]) -> Result<usize, Failed>
        requires { 0 < length buf.old }
        ensures count { IfOk result (λ n. n ≤ length buf.old) }
        ensures reader { ReadConsumes (R.remaining (reader_of self.old))
            (R.remaining (reader_of self.new)) result buf.new }
        ensures cause { HasCause (source_faults self.old) (source_faults self.new) result }
    {
        match read_uninterrupted(&mut self.reader, buf) {
            Ok(n) => Ok(n),
            Err(_) => Err(fault(&mut self.faults)),
        }
    }
}

/// A sink over a writer of the system, as standard output or standard error. It buffers nothing.
/// What it holds is unknown.
#[derive(Drop)]
pub struct StdSink<W> {
    writer: W,
    faults: u64,
}

impl<W> StdSink<W> {
    ghost use Rattle.cc_io.specs.StdStreams.{writer_of, sink_faults};

    /// As `StdSink::new(rt.stdout())` or `StdSink::new(rt.stderr())`.
    pub fn new(writer: W) -> Self
        ensures writer { writer_of result ≡ writer }
        ensures faults { sink_faults result ≡ 0 }
    {
        StdSink { writer, faults: 0 }
    }
}

impl<W: Write> Sink for StdSink<W> {
    ghost use Rattle.std.specs.Io.KnownBytes.{WriteAppends};
    ghost use Rattle.cc_io.specs.Faults.{HasCause};
    ghost use Rattle.cc_io.specs.StdStreams.{writer_of, sink_faults};

    ghost faults = { sink_faults };

    ghost held = { λ _. None };

    ghost Rest = { Unit {0} };

    ghost rest = { λ _. tt };

    /// Hands on to the writer; its error, and a write that takes nothing of a piece, is a fault.
    fn write(&mut self, piece: &[u8]) -> Result<usize, Failed>
        ensures count { IfOk result (λ n. n ≤ length piece.now) }
        ensures some { IfOk result (λ n. 0 < length piece.now → 0 < n) }
        ensures writer { WriteAppends (W.contents (writer_of self.old))
            (W.contents (writer_of self.new)) result piece.now }
        ensures cause { HasCause (sink_faults self.old) (sink_faults self.new) result }
    {
        match write_uninterrupted(&mut self.writer, piece) {
            Ok(n) if n > 0 || piece.is_empty() => Ok(n),
            _ => Err(fault(&mut self.faults)),
        }
    }
}
