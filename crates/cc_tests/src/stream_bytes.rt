//! Sources, sinks and files that move one byte a call. One call is another: it fails, or answers
//! that there is no more.
ghost use Rattle.std.specs.Prelude.{◌≡◌, ◌≤◌, ◌<◌, length};

use cc_io::{Failed, Files, MemFiles, Sink, Source};
use std::alloc::{AllocError, Global};

/// What a call does.
#[derive(Clone, Copy, PartialEq, Eq)]
pub enum Way {
    /// It moves a byte, where there is one.
    Moves,
    /// It fails.
    Fails,
    /// It reads nothing, as at the end.
    Ends,
}

/// The calls of an object, of which the one of a number, counted from 0, has a way of its own.
#[derive(Drop)]
pub struct Calls {
    made: u64,
    number: u64,
    way: Way,
}

impl Calls {
    /// No call was made yet.
    pub fn new(number: u64, way: Way) -> Calls {
        Calls {
            made: 0,
            number,
            way,
        }
    }

    /// Counts a call, and gives its way.
    fn next(&mut self) -> Way {
        let way = if self.made == self.number {
            self.way
        } else {
            Way::Moves
        };
        self.made = self.made.saturating_add(1);
        way
    }
}

/// A source of these bytes.
#[derive(Drop)]
pub struct ByteSource {
    bytes: Vec<u8>,
    at: usize,
    calls: Calls,
    faults: u64,
}

impl ByteSource {
    /// A source of which nothing was read.
    pub fn new(bytes: Vec<u8>, calls: Calls) -> ByteSource {
        ByteSource {
            bytes,
            at: 0,
            calls,
            faults: 0,
        }
    }

    /// Moves the next byte, where there is one, and gives how many were moved.
    fn move_byte(&mut self, buf: &mut [u8]) -> usize
        requires { 0 < length buf.old }
        ensures count { result ≤ length buf.old }
        ensures faults { self.new.faults ≡ self.old.faults }
    {
        if self.at >= self.bytes.len() {
            return 0;
        }
        buf[0] = self.bytes[self.at];
        self.at += 1;
        1
    }
}

impl Source for ByteSource {
    ghost use Rattle.std.specs.Prelude.{None};

    ghost faults = { λ source. source.faults };

    ghost left = { λ _. None };

    fn read(&mut self, buf: &mut [u8]) -> Result<usize, Failed> {
        match self.calls.next() {
            Way::Moves => Ok(self.move_byte(buf)),
            Way::Ends => Ok(0),
            Way::Fails => {
                self.faults = self.faults.saturating_add(1);
                Err(Failed)
            }
        }
    }
}

/// A sink, and what it has taken.
#[derive(Drop)]
pub struct ByteSink {
    pub bytes: Vec<u8>,
    calls: Calls,
    faults: u64,
}

impl ByteSink {
    /// A sink that has taken nothing.
    pub fn new(alloc: Global, calls: Calls) -> ByteSink {
        ByteSink {
            bytes: Vec::new(alloc),
            calls,
            faults: 0,
        }
    }
}

impl Sink for ByteSink {
    ghost use Rattle.std.specs.Prelude.{None};

    ghost faults = { λ sink. sink.faults };

    ghost held = { λ _. None };

    ghost Rest = { Unit {0} };

    ghost rest = { λ _. tt };

    fn write(&mut self, piece: &[u8]) -> Result<usize, Failed> {
        let first = &piece[..piece.len().min(1)];
        if self.calls.next() == Way::Fails || self.bytes.extend_from_slice(first).is_err() {
            self.faults = self.faults.saturating_add(1);
            return Err(Failed);
        }
        Ok(first.len())
    }
}

/// Files in memory.
#[derive(Drop)]
pub struct ByteFiles {
    files: MemFiles,
    calls: Calls,
}

impl ByteFiles {
    /// No files.
    pub fn new(alloc: Global, number: u64, way: Way) -> Result<ByteFiles, AllocError> {
        let mut failing = Vec::new(alloc);
        if way == Way::Fails {
            failing.push(number)?;
        }
        Ok(ByteFiles {
            files: MemFiles::new(alloc, failing),
            calls: Calls::new(number, way),
        })
    }

    /// Puts a file there.
    pub fn insert(&mut self, name: &str, bytes: Vec<u8>) -> Result<(), AllocError> {
        self.files.insert(name, bytes)
    }

    /// The content of the file of this name; `None` where there is no such file.
    pub fn get(&self, name: &str) -> Option<&[u8]> {
        self.files.get(name)
    }
}

impl Files for ByteFiles {
    ghost use Rattle.std.specs.Prelude.{None};
    ghost use Rattle.cc_io.specs.MemFiles.{open_name, written_name, reads_failed, writes_failed};
    ghost use Rattle.cc_io.specs.MemFiles.{opens_failed, creates_failed};

    ghost read_faults = { λ it. reads_failed it.files };

    ghost write_faults = { λ it. writes_failed it.files };

    ghost open_faults = { λ it. opens_failed it.files };

    ghost create_faults = { λ it. creates_failed it.files };

    ghost known = { λ _. None };

    ghost reading = { λ it. open_name it.files };

    ghost left = { λ _. None };

    ghost writing = { λ it. written_name it.files };

    fn open(&mut self, name: &str) -> Result<(), Failed> {
        self.calls.next();
        self.files.open(name)
    }

    fn read(&mut self, buf: &mut [u8]) -> Result<usize, Failed> {
        if self.calls.next() == Way::Ends {
            return Ok(0);
        }
        self.files.read(&mut buf[..1])
    }

    fn create(&mut self, name: &str) -> Result<(), Failed> {
        self.calls.next();
        self.files.create(name)
    }

    fn write(&mut self, piece: &[u8]) -> Result<usize, Failed> {
        self.calls.next();
        self.files.write(&piece[..piece.len().min(1)])
    }
}
