//! Commands over streams and files of which a call fails or ends early, and each other one moves one
//! byte. A row has the object that has a call of its own, the number of that call, what it does, the
//! file that is the input, and the command. Its status is said, how much of the whole output and of
//! the whole OUT was written, and the report.

use crate::commands::arguments_of;
use crate::row::{Row, say_bytes, split};
use crate::stream_bytes::Way;
use crate::stream_calls::{Object, Odd, called};
use base::NoMemory;
use std::alloc::Global;
use std::sync::Wait;
use std::thread::Threads;

// The files that are there: sources of a program that exits with 42, of one that writes what it
// reads, of one that goes on asking at the end and of none, the log of the first, an input, and a
// script of a session.
const SOURCES: [(&str, &[u8]); 7] = [
    ("answer.c", b"int main(void) { return 42; }"),
    (
        "echo.c",
        b"int main(void) { int c; while ((c = getchar()) != -1) putchar(c); return 7; }",
    ),
    (
        "late.c",
        b"int main(void) { getchar(); getchar(); return 1 + getchar(); }",
    ),
    ("wrong.c", b"int main(void) { x = 1; return 0; }"),
    ("answer.log", b"function main 8 8\n"),
    ("abc", b"abc"),
    ("script", b"build\nend\n"),
];

// The images of the first two sources, and the commands that make them.
const IMAGES: [(&str, &str); 2] = [
    ("build answer.c out --recipe none", "answer.elf"),
    ("build echo.c out --recipe none", "echo.elf"),
];

// The arguments of a command, which may be empty, after the name of the program.
fn words_of(alloc: Global, command: &str) -> Result<Vec<String>, NoMemory> {
    let words = format!(in alloc; "rvcc {command}")?;
    arguments_of(alloc, words.as_str().trim_end())
}

/// Puts all files there that a row may name.
pub fn put_files(rt: &(impl Threads + Wait + Sync), held: &mut Row) -> Result<(), NoMemory> {
    let alloc = held.alloc;
    for (name, bytes) in SOURCES {
        held.put_file(name, bytes.to_vec(alloc)?)?;
    }
    for (command, image) in IMAGES {
        let words = words_of(alloc, command)?;
        let left = called(rt, alloc, &words, &held.files, b"", Odd::NONE)?;
        let bytes = left.files.get("out").unwrap_or(b"").to_vec(alloc)?;
        held.put_file(image, bytes)?;
    }
    Ok(())
}

fn object_named(name: &str) -> Object {
    match name {
        "input" => Object::Input,
        "output" => Object::Output,
        "report" => Object::Report,
        _ => Object::Files,
    }
}

fn way_named(name: &str) -> Way {
    match name {
        "fails" => Way::Fails,
        "ends" => Way::Ends,
        _ => Way::Moves,
    }
}

// Says how much of the whole a part is, where it is a front of it.
fn say_part(said: &mut String, part: Option<&[u8]>, whole: Option<&[u8]>) -> Result<(), NoMemory> {
    match (part, whole) {
        (Some(part), Some(whole)) if whole.starts_with(part) => {
            Ok(write!(said, "{} of {} ", part.len(), whole.len())?)
        }
        (None, _) => Ok(said.push_str("none ")?),
        _ => Ok(said.push_str("wrong ")?),
    }
}

// Says how a command ends over this input, where one call is an odd one.
fn say_end(
    rt: &(impl Threads + Wait + Sync),
    said: &mut String,
    held: &Row,
    command: &str,
    input: &[u8],
    odd: Odd,
) -> Result<(), NoMemory> {
    let words = words_of(held.alloc, command)?;
    let whole = called(rt, held.alloc, &words, &held.files, input, Odd::NONE)?;
    let left = called(rt, held.alloc, &words, &held.files, input, odd)?;
    write!(said, "{} output ", left.status)?;
    say_part(said, Some(&left.output.bytes), Some(&whole.output.bytes))?;
    said.push_str("out ")?;
    say_part(said, left.files.get("out"), whole.files.get("out"))?;
    say_bytes(said, &left.report.bytes)?;
    Ok(said.push('\n')?)
}

/// Says how the command of a row ends, over these files.
pub fn say_stream(
    rt: &(impl Threads + Wait + Sync),
    said: &mut String,
    held: &Row,
    row: &str,
) -> Result<(), NoMemory> {
    let (object, rest) = split(row);
    let (number, rest) = split(rest);
    let (way, rest) = split(rest);
    let (input, command) = split(rest);
    let odd = Odd {
        object: object_named(object),
        number: number.parse::<u64>().unwrap_or(0),
        way: way_named(way),
    };
    say_end(rt, said, held, command, held.content(input), odd)
}
