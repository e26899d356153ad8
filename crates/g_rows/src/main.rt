//! A program that tries the rows of a table, each on lambdas, and prints those that fail. It makes
//! changes, rules at their limits, sweeps, recipes, linear code and places, and promises nothing of
//! its own.
//!
//! A row begins with a line `row NAME`. A line that begins with `=` and a blank is wanted of it. A
//! line `function ..` begins the text of a lambda, the lines of which that follow begin with a
//! blank; between two `@` stand a count, a blank and a text, which the line repeats that often.
//! Each other line is a call (`calls`, `arenas`, `rules`, `changes`, `code`, `words`, `drawings`),
//! most on the last lambda. A row fails where what its calls say is not what is wanted of it. The
//! last line counts the rows.
//!
//! A line `part drawings` begins lambdas and calls of no row: what these say is printed, which
//! `stdout` has. They end at a line `part rows`.
#![tactic(auto)]

mod arenas;
mod calls;
mod changes;
mod code;
mod drawings;
mod row;
mod rules;
mod words;

use crate::calls::call;
use crate::row::Row;
use base::NoMemory;
use std::rt::Env;
use std::{io, mem};

// How many rows there were, and how many of them failed.
#[derive(Clone, Copy)]
struct Counts {
    rows: u32,
    failed: u32,
}

// Counts a row that is told whole, and prints its name and what was said where it fails.
fn judge(rt: &impl Print, row: &Row, counts: Counts) -> io::Result<Counts> {
    let mut counts = counts;
    if row.name.is_empty() {
        return Ok(counts);
    }
    counts.rows = counts.rows.saturating_add(1);
    if row.said.as_str() != row.wanted.as_str() {
        counts.failed = counts.failed.saturating_add(1);
        println!(rt; "{}: {:?}", row.name.as_str(), row.said.as_str())?;
    }
    Ok(counts)
}

// Takes a line of a row.
fn take(row: &mut Row, line: &str) -> Result<(), NoMemory> {
    if line.starts_with("function ") || line.starts_with(' ') {
        return row.tell(line);
    }
    match line.strip_prefix("= ") {
        Some(wanted) => row.want(wanted),
        None => call(row, line),
    }
}

fn main(rt: HostRuntime) -> io::Result<()> {
    let alloc = rt.alloc();
    let mut counts = Counts { rows: 0, failed: 0 };
    let mut row = Row::new(alloc);
    let mut is_printed = false;
    for line in rt.lines(alloc) {
        let line = line?;
        let line = line.as_str();
        if let Some(part) = line.strip_prefix("part ") {
            is_printed = part == "drawings";
        } else if line.starts_with("row ") {
            let last = mem::replace(&mut row, Row::new(alloc));
            counts = judge(&rt, &last, counts)?;
            row.name.push_str(line)?;
        } else if take(&mut row, line).is_err() {
            return println!(rt; "out of memory");
        }
        if is_printed {
            print!(rt; "{}", row.said.as_str())?;
            row.said.clear();
        }
    }
    counts = judge(&rt, &row, counts)?;
    println!(rt; "{} rows, {} failed", counts.rows, counts.failed)
}
