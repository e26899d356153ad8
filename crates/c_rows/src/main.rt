//! A program that says what parts of the compiler answer on the rows of a table. The rows are the
//! lines of `stdin`, and what is said the lines of `stdout`. It promises nothing of its own.
//!
//! A line `part NAME` is said again, and begins the rows of a part: `lex` (`lexing`), `type`
//! (`layouts`), `parse` (`parsing`), `scope` (`scopes`), `operator` (`operators`), `check`
//! (`checking`) or `command` (`commands`). `tools/parse.sh` and `tools/typing.sh` compare the rows
//! of `parse` and `operator` with gcc.
//!
//! Where there are arguments, it runs one part on another input instead (`bench`).
#![tactic(auto)]

mod bench;
mod checking;
mod commands;
mod constants;
mod lambdas;
mod layouts;
mod lexing;
mod operands;
mod operators;
mod parsing;
mod places;
mod scopes;
mod signs;
mod sources;

use crate::bench::run_part;
use crate::checking::say_checked;
use crate::commands::say_command;
use crate::layouts::say_layouts;
use crate::lexing::say_tokens;
use crate::operators::say_table;
use crate::parsing::say_parsed;
use crate::scopes::say_calls;
use base::NoMemory;
use std::rt::Env;
use std::{env, io};

// Says what a part answers on a row.
fn say(out: &mut String, part: &str, row: &str) -> Result<(), NoMemory> {
    match part {
        "lex" => say_tokens(out, row),
        "type" => say_layouts(out, row),
        "parse" => say_parsed(out, row),
        "scope" => say_calls(out, row),
        "operator" => say_table(out, row),
        "check" => say_checked(out, row),
        "command" => say_command(out, row),
        _ => Ok(out.push_str("no part\n")?),
    }
}

fn answer(rt: &(impl Print + AllocGlobal), part: &str, row: &str) -> io::Result<()> {
    let mut out = String::new(rt.alloc());
    match say(&mut out, part, row) {
        Ok(()) => print!(rt; "{}", out.as_str()),
        Err(NoMemory) => println!(rt; "out of memory"),
    }
}

fn answer_all(rt: &(impl Input + Print + AllocGlobal)) -> io::Result<()> {
    let mut part = String::new(rt.alloc());
    for line in rt.lines(rt.alloc()) {
        let line = line?;
        let line = line.as_str();
        match line.strip_prefix("part ") {
            Some(name) => {
                part.clear();
                part.push_str(name)?;
                println!(rt; "{line}")?;
            }
            None => answer(rt, part.as_str(), line)?,
        }
    }
    Ok(())
}

fn main(rt: HostRuntime) -> io::Result<()> {
    let mut words = env::args(&rt)?;
    match words.nth(1) {
        Some(part) => run_part(&rt, part.as_str(), words),
        None => answer_all(&rt),
    }
}
