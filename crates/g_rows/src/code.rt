//! Linear code. `linear` says the lines of the lambda, `lines` how many there are. `code LINE; ..`
//! says the places of the names of these lines, and how many places there are. A line is a word and
//! names: `enter`, `call`, `const`, `move`, `sub`, `store`, `branch`, `leave` or `label`.

ghost use Rattle.std.specs.Prelude.{◌<◌, IfOk, IsTrue, nat_lt};
ghost use Rattle.g_graph.specs.WellFormed.{all_of};
ghost use Rattle.s_linear.specs.Lines.{names_below};
ghost use Rattle.s_linear.specs.Views.{line_of};

use crate::row::Row;
use a_place::place;
use base::NoMemory;
use g_graph::{Lambda, check, values};
use s_linear::{Instr, Line, Linear};
use s_sequence::sequence;
use std::alloc::Global;
use val_core::Op2;

// The linear code of a lambda, or none where it is not well formed.
fn sequenced(alloc: Global, lambda: &Lambda) -> Result<Option<Linear>, NoMemory> {
    if !check(lambda) || values(lambda) >= 1 << 32 {
        return Ok(None);
    }
    Ok(Some(sequence(alloc, lambda)?))
}

/// Says the lines of the linear code.
pub fn linear(row: &mut Row, lambda: &Lambda) -> Result<(), NoMemory> {
    match sequenced(row.alloc, lambda)? {
        Some(linear) => say_lines(row, &linear),
        None => row.say("not well formed"),
    }
}

fn say_lines(row: &mut Row, linear: &Linear) -> Result<(), NoMemory> {
    for line in &linear.lines {
        let text = format!(in row.alloc; "{line:?}")?;
        row.say(text.as_str())?;
    }
    Ok(())
}

/// Says how many lines the linear code has.
pub fn lines(row: &mut Row, lambda: &Lambda) -> Result<(), NoMemory> {
    match sequenced(row.alloc, lambda)? {
        Some(linear) => row.say_number(linear.lines.len() as u64),
        None => row.say("not well formed"),
    }
}

fn names(alloc: Global, text: &str) -> Result<Vec<u32>, NoMemory>
    ensures { IfOk result (λ v. IsTrue (all_of (λ x. nat_lt x 4294967295) v.items)) }
{
    let mut names = Vec::new(alloc);
    for word in text.split_whitespace() {
        names.push(u32::from(word.parse::<u8>().unwrap_or(0)))?;
    }
    Ok(names)
}

fn line(alloc: Global, text: &str) -> Result<Line, NoMemory>
    ensures { IfOk result (λ l. IsTrue (names_below 4294967295 (line_of l))) }
{
    let (word, rest) = text.split_once(' ').unwrap_or((text, ""));
    if word == "enter" {
        return Ok(Line::Enter {
            params: names(alloc, rest)?,
        });
    }
    if word == "call" {
        return call_line(alloc, rest);
    }
    Ok(small_line(word, rest))
}

fn call_line(alloc: Global, text: &str) -> Result<Line, NoMemory>
    ensures { IfOk result (λ l. IsTrue (names_below 4294967295 (line_of l))) }
{
    let (target, rest) = text.split_once(' ').unwrap_or((text, ""));
    Ok(Line::Done {
        instr: Instr::Call {
            function: 0,
            target: u32::from(target.parse::<u8>().unwrap_or(0)),
            arguments: names(alloc, rest)?,
        },
    })
}

// A line of at most three names.
fn small_line(word: &str, text: &str) -> Line
    ensures { IsTrue (names_below 4294967295 (line_of result)) }
{
    let mut words = text.split_whitespace();
    let a = name(words.next());
    let b = name(words.next());
    let c = name(words.next());
    let instr = match word {
        "const" => Instr::Const { target: a, word: 0 },
        "move" => Instr::Move {
            target: a,
            source: b,
        },
        "sub" => Instr::Binary {
            op: Op2::Sub,
            target: a,
            left: b,
            right: c,
        },
        "store" => Instr::Store {
            width: 4,
            address: a,
            value: b,
        },
        "branch" => return Line::BranchZero {
            predicate: a,
            label: 0,
        },
        "leave" => return Line::Leave { value: a },
        _ => return Line::Label { number: 0 },
    };
    Line::Done { instr }
}

fn name(word: Option<&str>) -> u32
    ensures { result < 4294967295 }
{
    u32::from(word.unwrap_or("").parse::<u8>().unwrap_or(0))
}

fn code_of(alloc: Global, text: &str) -> Result<Linear, NoMemory>
    ensures { IfOk result (λ l. IsTrue (all_of (names_below 4294967295) l)) }
{
    let mut lines = Vec::new(alloc);
    for part in text.split(';') {
        lines.push(line(alloc, part.trim())?)?;
    }
    Ok(Linear { lines })
}

/// Says the places of the names of lines.
pub fn place_lines(row: &mut Row, text: &str) -> Result<(), NoMemory> {
    let places = place(row.alloc, &code_of(row.alloc, text)?)?;
    let text = format!(in row.alloc; "{:?} of {}", places.of.as_slice(), places.count)?;
    row.say(text.as_str())
}
