//! Calls of the top call over files and streams that move one byte a call.
use crate::row::Named;
use crate::stream_bytes::{ByteFiles, ByteSink, ByteSource, Calls, Way};
use base::NoMemory;
use board_work::OpenGate;
use cc_top::top;
use cc_watch::{Counter, LogKeeper, Watcher};
use std::alloc::Global;
use std::sync::Wait;
use std::thread::Threads;

/// What a command works over.
#[derive(Clone, Copy, PartialEq, Eq)]
pub enum Object {
    Files,
    Input,
    Output,
    Report,
}

/// A call that is not like the others: the one of this number on this object, counted from 0.
#[derive(Clone, Copy)]
pub struct Odd {
    pub object: Object,
    pub number: u64,
    pub way: Way,
}

impl Odd {
    /// A call that is like the others.
    pub const NONE: Odd = Odd {
        object: Object::Files,
        number: 0,
        way: Way::Moves,
    };

    /// The calls of an object.
    fn calls_of(self, object: Object) -> Calls {
        let way = if self.object == object {
            self.way
        } else {
            Way::Moves
        };
        Calls::new(self.number, way)
    }
}

/// What a call left.
#[derive(Drop)]
pub struct Left {
    /// The exit status.
    pub status: u8,
    /// The files by name.
    pub files: ByteFiles,
    /// What was written on the output.
    pub output: ByteSink,
    /// What was reported.
    pub report: ByteSink,
}

/// The files, of which the calls have these ways.
fn files_of(alloc: Global, held: &[Named], odd: Odd) -> Result<ByteFiles, NoMemory> {
    let way = if odd.object == Object::Files {
        odd.way
    } else {
        Way::Moves
    };
    let mut files = ByteFiles::new(alloc, odd.number, way)?;
    for file in held {
        files.insert(file.name.as_str(), file.bytes.to_vec(alloc)?)?;
    }
    Ok(files)
}

/// Calls `top` with these arguments over these files and this input, and the watchers of `rvcc`.
pub fn called(
    rt: &(impl Threads + Wait + Sync),
    alloc: Global,
    words: &[String],
    held: &[Named],
    input: &[u8],
    odd: Odd,
) -> Result<Left, NoMemory> {
    let mut files = files_of(alloc, held, odd)?;
    let mut input = ByteSource::new(input.to_vec(alloc)?, odd.calls_of(Object::Input));
    let mut output = ByteSink::new(alloc, odd.calls_of(Object::Output));
    let mut report = ByteSink::new(alloc, odd.calls_of(Object::Report));
    let mut watchers: Vec<Box<dyn Watcher>> = Vec::new(alloc);
    watchers.push(Box::new(alloc, Counter::new())?)?;
    watchers.push(Box::new(alloc, LogKeeper::new(alloc))?)?;
    let status = top(
        rt,
        alloc,
        words,
        &mut files,
        &mut input,
        &mut output,
        &mut report,
        &OpenGate,
        &mut watchers,
    );
    Ok(Left {
        status,
        files,
        output,
        report,
    })
}
