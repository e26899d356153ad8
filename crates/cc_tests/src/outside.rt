//! Sources, sinks and files, in memory and of the system, of which the listed calls fail.
//!
//! `read CALLS TEXT` reads four times from a source of this text, up to six bytes each time, and
//! says how many were read and what the buffer then holds; `read - TEXT` does so where no call can
//! fail, and `read flaky` from a reader of the system (`Flaky`). `write CALLS PIECE ..` writes the
//! pieces into a sink, and says how much it took of each and then what it holds; `write flaky` and
//! `write stdout` write into a writer of the system. A piece `-` is empty. `files CALLS` opens,
//! reads, creates and writes files in memory, and `folder` those of the system. `save CALLS` saves
//! a file of 10,000 bytes, and `generate CALLS COUNT` generates a program of so many functions;
//! both say how much is there.

ghost use Rattle.std.specs.Prelude.{◌≡◌, IsSome};

use crate::row::{Row, bytes_of, listed, say_bytes, split};
use base::NoMemory;
use cc_gen::generate;
use cc_io::{
    DirFiles, Failed, Files, MemFiles, MemSink, MemSource, NoFailSource, Sink, Source, StdSink,
    StdSource, save,
};
use std::alloc::Global;
use std::io::{ErrorKind, Read, Write};
use std::{env, fs, io, process};

// A reader and writer of the system that moves a byte a call, fails at the third and takes nothing
// at the fourth. The bytes are the digits of the calls.
#[derive(Drop)]
struct Flaky {
    calls: u8,
}

impl Read for Flaky {
    fn read(&mut self, buf: &mut [u8]) -> io::Result<usize> {
        self.calls = self.calls.saturating_add(1);
        if self.calls == 3 || buf.is_empty() {
            return Err(io::Error::from(ErrorKind::Other));
        }
        buf[0] = self.calls.saturating_add(b'0');
        Ok(1)
    }
}

impl Write for Flaky {
    fn write(&mut self, buf: &[u8]) -> io::Result<usize> {
        self.calls = self.calls.saturating_add(1);
        match self.calls {
            3 => Err(io::Error::from(ErrorKind::Other)),
            4 => Ok(0),
            _ => Ok(buf.len().min(1)),
        }
    }

    fn flush(&mut self) -> io::Result<()> {
        Ok(())
    }
}

// What a buffer holds before the first read.
const UNREAD: [u8; 6] = [b'.'; 6];

fn say_moved(said: &mut String, moved: Result<usize, Failed>) -> Result<(), NoMemory> {
    match moved {
        Ok(count) => Ok(write!(said, "{count}")?),
        Err(Failed) => Ok(said.push_str("failed")?),
    }
}

// Says what a read has moved, and what the buffer holds then.
fn say_read(said: &mut String, moved: Result<usize, Failed>, buf: &[u8]) -> Result<(), NoMemory> {
    say_moved(said, moved)?;
    said.push(' ')?;
    say_bytes(said, buf)?;
    Ok(said.push('\n')?)
}

fn say_reads<S: Source>(said: &mut String, source: &mut S) -> Result<(), NoMemory> {
    let mut buf = UNREAD;
    for _ in 0..4 {
        let moved = source.read(&mut buf);
        say_read(said, moved, &buf)?;
    }
    Ok(())
}

fn reads(row: &mut Row, words: &str) -> Result<(), NoMemory> {
    let (kind, text) = split(words);
    let text = bytes_of(row.alloc, text)?;
    match kind {
        "flaky" => {
            let mut source = StdSource::new(Flaky { calls: 0 });
            say_reads(&mut row.said, &mut source)
        }
        "-" => {
            let mut source = NoFailSource::new(text);
            say_reads(&mut row.said, &mut source)
        }
        _ => {
            let failing = listed(row.alloc, kind)?;
            let mut source = MemSource::new(text, failing);
            say_reads(&mut row.said, &mut source)
        }
    }
}

fn say_writes<S: Sink>(said: &mut String, sink: &mut S, pieces: &str) -> Result<(), NoMemory> {
    let alloc = *said.allocator();
    for piece in pieces.split(' ') {
        let piece = if piece == "-" { "" } else { piece };
        let bytes = bytes_of(alloc, piece)?;
        let moved = sink.write(&bytes);
        say_moved(said, moved)?;
        said.push('\n')?;
    }
    Ok(())
}

fn writes_in_memory(row: &mut Row, failing: Vec<u64>, pieces: &str) -> Result<(), NoMemory> {
    let mut sink = MemSink::new(row.alloc, failing);
    say_writes(&mut row.said, &mut sink, pieces)?;
    say_bytes(&mut row.said, sink.bytes())?;
    Ok(row.said.push('\n')?)
}

fn writes(host: &HostRuntime, row: &mut Row, words: &str) -> Result<(), NoMemory> {
    let (kind, pieces) = split(words);
    match kind {
        "flaky" => {
            let mut sink = StdSink::new(Flaky { calls: 0 });
            say_writes(&mut row.said, &mut sink, pieces)
        }
        "stdout" => {
            let mut sink = StdSink::new(host.stdout());
            say_writes(&mut row.said, &mut sink, pieces)
        }
        _ => {
            let failing = listed(row.alloc, kind)?;
            writes_in_memory(row, failing, pieces)
        }
    }
}

// Says the next read of the open file.
fn say_next<F: Files>(said: &mut String, files: &mut F, buf: &mut [u8; 6]) -> Result<(), NoMemory>
    requires { IsSome (F.reading files.old) }
    ensures { F.reading files.new ≡ F.reading files.old }
{
    let moved = files.read(buf);
    say_read(said, moved, buf.as_slice())
}

// Says the first reads of the file of this name.
fn say_file<F: Files>(said: &mut String, files: &mut F, name: &str) -> Result<(), NoMemory> {
    match files.open(name) {
        Ok(()) => {
            let mut buf = UNREAD;
            say_next(said, files, &mut buf)?;
            say_next(said, files, &mut buf)?;
            say_next(said, files, &mut buf)?;
            say_next(said, files, &mut buf)
        }
        Err(Failed) => Ok(said.push_str("not opened\n")?),
    }
}

// Says a write into the created file.
fn say_write<F: Files>(said: &mut String, files: &mut F, piece: &[u8]) -> Result<(), NoMemory>
    requires { IsSome (F.writing files.old) }
    ensures { F.writing files.new ≡ F.writing files.old }
{
    let moved = files.write(piece);
    say_moved(said, moved)?;
    Ok(said.push('\n')?)
}

fn say_written(said: &mut String, files: &MemFiles, name: &str) -> Result<(), NoMemory> {
    match files.get(name) {
        Some(bytes) => say_bytes(said, bytes)?,
        None => said.push_str("none")?,
    }
    Ok(said.push('\n')?)
}

// Says writes into a file that it creates, and what is there after the first one and after all.
fn say_created(said: &mut String, files: &mut MemFiles, name: &str) -> Result<(), NoMemory> {
    match files.create(name) {
        Ok(()) => {
            say_write(said, files, b"ab")?;
            say_written(said, files, name)?;
            say_write(said, files, b"ab")?;
            say_write(said, files, b"c")?;
            say_written(said, files, name)
        }
        Err(Failed) => Ok(said.push_str("not created\n")?),
    }
}

const DIGITS: &[u8] = b"0123456789";

fn put_two(alloc: Global, files: &mut MemFiles) -> Result<(), NoMemory> {
    files.insert("in", DIGITS.to_vec(alloc)?)?;
    Ok(files.insert("out", b"old".to_vec(alloc)?)?)
}

fn in_memory(row: &mut Row, calls: &str) -> Result<(), NoMemory> {
    let failing = listed(row.alloc, calls)?;
    let mut files = MemFiles::new(row.alloc, failing);
    put_two(row.alloc, &mut files)?;
    say_file(&mut row.said, &mut files, "missing")?;
    say_file(&mut row.said, &mut files, "in")?;
    say_created(&mut row.said, &mut files, "out")?;
    say_written(&mut row.said, &files, "in")
}

// Says whether a file is saved.
fn say_saved<F: Files>(
    said: &mut String,
    files: &mut F,
    name: &str,
    bytes: &[u8],
) -> Result<(), NoMemory> {
    match save(files, name, bytes) {
        Ok(()) => Ok(said.push_str("saved\n")?),
        Err(Failed) => Ok(said.push_str("not saved\n")?),
    }
}

fn saves(row: &mut Row, calls: &str) -> Result<(), NoMemory> {
    let bytes = vec![in row.alloc; 7; 10_000]?;
    let failing = listed(row.alloc, calls)?;
    let mut files = MemFiles::new(row.alloc, failing);
    say_saved(&mut row.said, &mut files, "out", &bytes)?;
    say_written(&mut row.said, &files, "out")
}

// Says the ends of calls on the files of a folder.
fn say_folder<F: Files>(said: &mut String, files: &mut F, name: &str) -> Result<(), NoMemory> {
    say_file(said, files, name)?;
    say_file(said, files, ".")?;
    match files.create("cc_io_missing/out") {
        Ok(()) => said.push_str("created\n")?,
        Err(Failed) => said.push_str("not created\n")?,
    }
    say_saved(said, files, name, DIGITS)?;
    say_file(said, files, name)
}

fn in_folder(host: &HostRuntime, said: &mut String) -> io::Result<Result<(), NoMemory>> {
    let alloc = host.alloc();
    let folder = env::temp_dir(host)?;
    let name = format!(in alloc; "cc_io_{}", process::id(host.process()))?;
    let mut files = DirFiles::new(alloc, host, folder.as_str())?;
    let done = say_folder(said, &mut files, &name);
    fs::remove_file(host, folder.as_path().join(alloc, name.as_str())?.as_path())?;
    Ok(done)
}

fn folder(host: &HostRuntime, row: &mut Row) -> Result<(), NoMemory> {
    match in_folder(host, &mut row.said) {
        Ok(done) => done,
        Err(_) => row.say("the system fails"),
    }
}

// Says how much of a program of 100 functions is there, of which another one may be a front.
fn say_generated(said: &mut String, out: &[u8], whole: &[u8]) -> Result<(), NoMemory> {
    let mark = if whole.starts_with(out) { "" } else { "other " };
    Ok(write!(said, "{mark}{} of {}\n", out.len(), whole.len())?)
}

fn generates(row: &mut Row, words: &str) -> Result<(), NoMemory> {
    let (calls, count) = split(words);
    let failing = listed(row.alloc, calls)?;
    let mut out = MemSink::new(row.alloc, failing);
    let mut whole = MemSink::new(row.alloc, Vec::new(row.alloc));
    let made = generate(1, count.parse::<u32>().unwrap_or(0), &mut out);
    let all = generate(1, 100, &mut whole);
    if made.is_err() {
        row.said.push_str("failed ")?;
    }
    if all.is_err() {
        row.said.push_str("the whole failed ")?;
    }
    say_generated(&mut row.said, out.bytes(), whole.bytes())
}

/// Makes a call on what is handed to the top call.
pub fn outside(host: &HostRuntime, row: &mut Row, word: &str, words: &str) -> Result<(), NoMemory> {
    match word {
        "read" => reads(row, words),
        "write" => writes(host, row, words),
        "files" => in_memory(row, words),
        "folder" => folder(host, row),
        "save" => saves(row, words),
        "generate" => generates(row, words),
        _ => row.say("no call"),
    }
}
