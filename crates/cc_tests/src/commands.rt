//! Commands over files and streams in memory, of which calls may fail.
//!
//! `command WORDS` says the status, the output, the report and OUT, which is the file `out`: how
//! long it is where it is a front of the file that it is compared with, `other` before that where
//! it is none, and `none` where it is not there. `make NAME WORDS` says the same, and OUT is the
//! file NAME from then on, with which it is compared. `meet TURNS WORDS` says the status, and
//! whether the makings of the jobs 1 and 2 met at a gate, which holds job 1 for so many turns at
//! most. `passes WORDS` says the status, and how often the gate was passed.

use crate::row::{Named, Row, listed, say_bytes, split};
use base::NoMemory;
use board_work::{CountGate, Gate, MeetGate};
use cc_io::{MemFiles, MemSink, MemSource};
use std::alloc::Global;

/// A gate where two workers may meet, and that counts its passes.
#[derive(Drop)]
pub struct Turnstile {
    meeting: MeetGate,
    counted: CountGate,
}

impl Gate for Turnstile {
    fn pass(&self, job: u32) {
        self.meeting.pass(job);
        self.counted.pass(job);
    }
}

/// What the top call is handed.
#[derive(Drop)]
pub struct Handed {
    pub arguments: Vec<String>,
    pub files: MemFiles,
    pub input: MemSource,
    pub output: MemSink,
    pub report: MemSink,
    pub gate: Turnstile,
}

/// The arguments that these words are.
pub fn arguments_of(alloc: Global, words: &str) -> Result<Vec<String>, NoMemory> {
    let mut arguments = Vec::new(alloc);
    if words.is_empty() {
        return Ok(arguments);
    }
    for word in words.split(' ') {
        arguments.push(String::from_str(alloc, word)?)?;
    }
    Ok(arguments)
}

fn put_all(alloc: Global, files: &mut MemFiles, held: &[Named]) -> Result<(), NoMemory> {
    for file in held {
        let bytes = file.bytes.to_vec(alloc)?;
        files.insert(file.name.as_str(), bytes)?;
    }
    Ok(())
}

fn files_of(alloc: Global, held: &[Named], failing: Vec<u64>) -> Result<MemFiles, NoMemory> {
    let mut files = MemFiles::new(alloc, failing);
    put_all(alloc, &mut files, held)?;
    Ok(files)
}

// What the command of these words is handed, job 1 held for so many turns.
fn hand_in(row: &Row, words: &str, turns: u64) -> Result<Handed, NoMemory> {
    let alloc = row.alloc;
    let arguments = arguments_of(alloc, words)?;
    let input = row.input.to_vec(alloc)?;
    let (of_files, rest) = split(row.failing.as_str());
    let (of_input, rest) = split(rest);
    let (of_output, of_report) = split(rest);
    let of_files = listed(alloc, of_files)?;
    let of_input = listed(alloc, of_input)?;
    let of_output = listed(alloc, of_output)?;
    let of_report = listed(alloc, of_report)?;
    let files = files_of(alloc, &row.files, of_files)?;
    Ok(Handed {
        arguments,
        files,
        input: MemSource::new(input, of_input),
        output: MemSink::new(alloc, of_output),
        report: MemSink::new(alloc, of_report),
        gate: Turnstile {
            meeting: MeetGate::new(1, 2, turns),
            counted: CountGate::new(),
        },
    })
}

/// What the command of a line is handed, which is this word and what stands behind it.
pub fn handed_of(row: &Row, word: &str, words: &str) -> Result<Handed, NoMemory> {
    let (first, rest) = split(words);
    match word {
        "make" => hand_in(row, rest, 0),
        "meet" => hand_in(row, rest, first.parse::<u64>().unwrap_or(0)),
        _ => hand_in(row, words, 0),
    }
}

fn say_out(row: &mut Row, out: &[u8]) -> Result<(), NoMemory> {
    let is_front = row.content(row.whole.as_str()).starts_with(out);
    let mark = if is_front { "" } else { "other " };
    Ok(write!(row.said, " {mark}{}\n", out.len())?)
}

fn say_left(row: &mut Row, status: u8, handed: &Handed) -> Result<(), NoMemory> {
    write!(row.said, "{status} ")?;
    say_bytes(&mut row.said, handed.output.bytes())?;
    row.said.push(' ')?;
    say_bytes(&mut row.said, handed.report.bytes())?;
    match handed.files.get("out") {
        Some(out) => say_out(row, out),
        None => row.say(" none"),
    }
}

// Puts OUT as a file of this name, with which it is compared from then on.
fn keep(row: &mut Row, name: &str, handed: &Handed) -> Result<(), NoMemory> {
    let out = handed.files.get("out").unwrap_or(b"");
    let bytes = out.to_vec(row.alloc)?;
    row.put_file(name, bytes)?;
    row.whole.clear();
    Ok(row.whole.push_str(name)?)
}

/// Says what the command of a line left, which ended with this status.
pub fn say_end(
    row: &mut Row,
    word: &str,
    words: &str,
    status: u8,
    handed: &Handed,
) -> Result<(), NoMemory> {
    match word {
        "make" => {
            keep(row, split(words).0, handed)?;
            say_left(row, status, handed)
        }
        "meet" => {
            let met = handed.gate.meeting.met();
            let met = if met { "met" } else { "not met" };
            Ok(write!(row.said, "{status} {met}\n")?)
        }
        "passes" => {
            let passes = handed.gate.counted.passes();
            Ok(write!(row.said, "{status} {passes}\n")?)
        }
        _ => say_left(row, status, handed),
    }
}
