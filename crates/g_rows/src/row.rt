//! A row: its lambdas, what was said of them, and what is wanted.

use base::NoMemory;
use g_graph::Lambda;
use g_text::{Named, ReadFault, read, write_lambda};
use std::alloc::Global;
use std::mem;

/// A row of the table, as far as it is told.
#[derive(Drop)]
pub struct Row {
    pub alloc: Global,
    pub name: String,
    /// The lines of a lambda that are not read yet.
    pub told: String,
    /// The lambdas that are read. The last is the one that calls are on.
    pub lambdas: Vec<Named>,
    pub said: String,
    pub wanted: String,
}

/// The line, in which what stands between two `@` is repeated.
fn repeated(alloc: Global, line: &str) -> Result<String, NoMemory> {
    let mut text = String::new(alloc);
    for (i, chunk) in line.split('@').enumerate() {
        match chunk.split_once(' ') {
            Some((count, piece)) if i % 2 == 1 => {
                for _ in 0..count.parse::<u32>().unwrap_or(0) {
                    text.push_str(piece)?;
                }
            }
            _ => text.push_str(chunk)?,
        }
    }
    Ok(text)
}

impl Row {
    /// A row of which nothing is told.
    pub fn new(alloc: Global) -> Row {
        Row {
            alloc,
            name: String::new(alloc),
            told: String::new(alloc),
            lambdas: Vec::new(alloc),
            said: String::new(alloc),
            wanted: String::new(alloc),
        }
    }

    /// Takes a line of a lambda.
    pub fn tell(&mut self, line: &str) -> Result<(), NoMemory> {
        if line.starts_with("function ") {
            self.read_told()?;
        }
        let line = repeated(self.alloc, line)?;
        self.told.push_str(line.as_str())?;
        Ok(self.told.push('\n')?)
    }

    /// Takes a line that is wanted.
    pub fn want(&mut self, line: &str) -> Result<(), NoMemory> {
        self.wanted.push_str(line)?;
        Ok(self.wanted.push('\n')?)
    }

    /// Says a line.
    pub fn say(&mut self, line: &str) -> Result<(), NoMemory> {
        self.said.push_str(line)?;
        Ok(self.said.push('\n')?)
    }

    /// Says a line for a number.
    pub fn say_number(&mut self, number: u64) -> Result<(), NoMemory> {
        let text = format!(in self.alloc; "{number}")?;
        self.say(text.as_str())
    }

    /// Says the one line or the other.
    pub fn say_whether(&mut self, holds: bool, yes: &str, no: &str) -> Result<(), NoMemory> {
        self.say(if holds { yes } else { no })
    }

    /// Reads the lambda that is told, if there is one.
    pub fn read_told(&mut self) -> Result<(), NoMemory> {
        if self.told.is_empty() {
            return Ok(());
        }
        let told = mem::replace(&mut self.told, String::new(self.alloc));
        match read(self.alloc, told.as_str()) {
            Ok(found) => Ok(self.lambdas.push(found)?),
            Err(ReadFault::NoMemory) => Err(NoMemory),
            Err(fault) => self.refuse(&fault),
        }
    }

    fn refuse(&mut self, fault: &ReadFault) -> Result<(), NoMemory> {
        let text = format!(in self.alloc; "no lambda: {fault:?}")?;
        self.say(text.as_str())
    }

    /// Says the text of a lambda of this name.
    pub fn say_lambda(&mut self, name: &[u8], lambda: &Lambda) -> Result<(), NoMemory> {
        let mut text = Vec::new(self.alloc);
        write_lambda(&mut text, name, lambda)?;
        self.say_text(&text)
    }

    /// Says a text.
    pub fn say_text(&mut self, text: &[u8]) -> Result<(), NoMemory> {
        match str::from_utf8(text) {
            Ok(text) => Ok(self.said.push_str(text)?),
            Err(_) => self.say("no text"),
        }
    }
}
