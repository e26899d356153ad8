//! Rows that need the libraries of the top call: calls that fail, watchers, workers at a gate.
//! There are a few sources of each kind too, with what is reported or done; what needs the program
//! `rvcc` alone is a row of `rows/`. It is a program that tries the rows of a table, prints those
//! that fail, and counts them. No crate stands on it, and it promises nothing of its own.
//!
//! A row begins with a line `row NAME`. A line that begins with `=` and a blank is wanted of it.
//! Each other line is a call (`try_row`, `commands`, `texts`, `outside`, `calls`). A row fails
//! where what its calls say is not what is wanted of it. In a text `%` and two hexadecimal digits
//! are a byte.
//!
//! From a line `part streams` to a line `part rows` each line is a row by itself, and what it says
//! is printed (`streams`), which `stdout` has.
#![tactic(auto)]

mod calls;
mod commands;
mod outside;
mod row;
mod stream_bytes;
mod stream_calls;
mod streams;
mod texts;
mod watching;

use crate::calls::call;
use crate::commands::{handed_of, say_end};
use crate::row::{Row, split};
use crate::streams::{put_files, say_stream};
use crate::texts::{say_texts, tell_row};
use crate::watching::watching_of;
use base::NoMemory;
use cc_top::top;
use cc_watch::{Counter, LogKeeper, Watcher};
use std::io;
use std::rt::Env;
use std::sync::Wait;
use std::thread::Threads;

// How many rows there were, and how many of them failed.
#[derive(Clone, Copy)]
struct Counts {
    rows: u32,
    failed: u32,
}

// Makes the calls of a row. A line `watch` and the name of a watcher gives the commands that follow
// one more, and `watch nobody` leaves them without. They are made, and handed to the top call, here
// alone, since no function may hand out what it makes of a trait.
fn try_row<H: Threads + Wait + Sync>(
    host: &HostRuntime,
    workers: &H,
    row: &mut Row,
    lines: &[String],
) -> Result<(), NoMemory> {
    let alloc = row.alloc;
    let mut watchers: Vec<Box<dyn Watcher>> = Vec::new(alloc);
    for line in lines {
        let (word, words) = split(line.as_str());
        match word {
            "watch" => match words {
                "nobody" => watchers.clear(),
                "count" => watchers.push(Box::new(alloc, Counter::new())?)?,
                "log" => watchers.push(Box::new(alloc, LogKeeper::new(alloc))?)?,
                _ => {
                    let watching = watching_of(alloc, words)?;
                    watchers.push(Box::new(alloc, watching)?)?;
                }
            },
            "tell" => tell_row(row, words, &mut watchers)?,
            "texts" => say_texts(row, words, &watchers)?,
            "command" | "make" | "meet" | "passes" => {
                let mut handed = handed_of(row, word, words)?;
                let status = top(
                    workers,
                    alloc,
                    &handed.arguments,
                    &mut handed.files,
                    &mut handed.input,
                    &mut handed.output,
                    &mut handed.report,
                    &handed.gate,
                    &mut watchers,
                );
                let said = say_end(row, word, words, status, &handed);
                drop(handed);
                said?;
            }
            _ => call(host, row, word, words)?,
        }
    }
    Ok(())
}

// Tries a row that is told whole, counts it, and prints its name and what was said where it fails.
// What stands before the first row has no name, and is not counted.
fn judge<H: Threads + Wait + Sync>(
    host: &HostRuntime,
    workers: &H,
    row: &mut Row,
    lines: &[String],
    counts: Counts,
) -> io::Result<Counts> {
    if try_row(host, workers, row, lines).is_err() {
        row.said.push_str("out of memory")?;
    }
    let mut counts = counts;
    if !row.name.is_empty() {
        counts.rows = counts.rows.saturating_add(1);
    }
    if row.said.as_str() != row.wanted.as_str() {
        counts.failed = counts.failed.saturating_add(1);
        println!(host; "{}: {:?}", row.name.as_str(), row.said.as_str())?;
    }
    Ok(counts)
}

// Takes a line of the table. Where it begins a row, the row before it is told whole.
fn take<H: Threads + Wait + Sync>(
    host: &HostRuntime,
    workers: &H,
    row: &mut Row,
    lines: &mut Vec<String>,
    counts: Counts,
    line: String,
) -> io::Result<Counts> {
    if !line.as_str().starts_with("row ") {
        lines.push(line)?;
        return Ok(counts);
    }
    let counts = judge(host, workers, row, lines, counts)?;
    lines.clear();
    row.begin();
    row.name.push_str(line.as_str())?;
    Ok(counts)
}

// Prints what a row of the part `streams` says, over these files.
fn print_stream<H: Threads + Wait + Sync>(
    host: &HostRuntime,
    workers: &H,
    held: &Row,
    row: &str,
) -> io::Result<()> {
    let mut said = String::new(host.alloc());
    match say_stream(workers, &mut said, held, row) {
        Ok(()) => print!(host; "{}", said.as_str()),
        Err(NoMemory) => println!(host; "out of memory"),
    }
}

// Tries the rows of the table.
fn try_all<H: Threads + Wait + Sync>(host: &HostRuntime, workers: &H) -> io::Result<Counts> {
    let alloc = host.alloc();
    let mut counts = Counts { rows: 0, failed: 0 };
    let mut row = Row::new(alloc);
    let mut lines: Vec<String> = Vec::new(alloc);
    let mut held = Row::new(alloc);
    if put_files(workers, &mut held).is_err() {
        println!(host; "out of memory")?;
    }
    let mut is_stream = false;
    for line in host.lines(alloc) {
        let line = line?;
        match line.as_str().strip_prefix("part ") {
            Some(part) => is_stream = part == "streams",
            None if is_stream => print_stream(host, workers, &held, line.as_str())?,
            None => counts = take(host, workers, &mut row, &mut lines, counts, line)?,
        }
    }
    judge(host, workers, &mut row, &lines, counts)
}

fn main(rt: HostRuntime) -> io::Result<()> {
    let counts = try_all(&rt, &rt)?;
    println!(rt; "{} rows, {} failed", counts.rows, counts.failed)
}
