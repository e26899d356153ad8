//! Scopes, tags and members. A row is a list of calls on tables that are empty at first; their
//! answers are said, and a point.
//!
//! `{` and `}` begin and end a scope. `+x` declares x in it, with the number of the call on its
//! line as its meaning, and `x` looks it up. `*S` names the tag S, `:S` declares it, and `?S` asks
//! for it. `.x` inserts x into a set of names, `=3` makes the set the members of the struct of tag
//! 3, and `3.x` asks for its member x.

use base::{Name, NoMemory};
use c_check_scope::{Members, Names, Scopes, Tags};
use std::alloc::Global;
use std::mem;

// What a call answers.
#[derive(Clone, Copy)]
enum Answer {
    Nothing,
    New(bool),
    Number(Option<u32>),
}

// The tables of a row.
#[derive(Drop)]
struct Tables {
    scopes: Scopes<u32>,
    tags: Tags,
    names: Names,
    members: Members,
}

// Inserts a name into the set, or asks for a member of the struct of a tag.
fn answer_member(tables: &mut Tables, tag: &str, name: &Name) -> Result<Answer, NoMemory> {
    match tag.parse::<u32>() {
        Ok(tag) => Ok(Answer::Number(tables.members.number(tag, name))),
        Err(_) => Ok(Answer::New(tables.names.insert(name)?)),
    }
}

// Makes the set of names the members of the struct of a tag.
fn define(alloc: Global, tables: &mut Tables, tag: &str) -> Result<Answer, NoMemory> {
    let names = mem::replace(&mut tables.names, Names::new(alloc));
    let tag = tag.parse::<u32>().unwrap_or(0);
    tables.members.define(tag, names)?;
    Ok(Answer::Nothing)
}

// Makes a call with a name.
fn answer_name(
    tables: &mut Tables,
    sign: &str,
    name: &Name,
    number: u32,
) -> Result<Answer, NoMemory> {
    match sign {
        "+" => Ok(Answer::New(tables.scopes.declare(name, number)?)),
        "*" => Ok(Answer::Number(Some(tables.tags.number(name)?))),
        ":" => Ok(Answer::Number(Some(tables.tags.declare(name)?))),
        "?" => Ok(Answer::Number(tables.tags.declared(name))),
        _ => Ok(Answer::Number(tables.scopes.lookup(name))),
    }
}

// Makes a call, which has this number on its line.
fn make_call(
    alloc: Global,
    tables: &mut Tables,
    call: &str,
    number: u32,
) -> Result<Answer, NoMemory> {
    if let Some((tag, name)) = call.split_once('.') {
        let name = Name::from_slice(alloc, name.as_bytes())?;
        return answer_member(tables, tag, &name);
    }
    if let Some(tag) = call.strip_prefix('=') {
        return define(alloc, tables, tag);
    }
    if call == "{" {
        tables.scopes.enter()?;
        return Ok(Answer::Nothing);
    }
    if call == "}" {
        tables.scopes.leave();
        return Ok(Answer::Nothing);
    }
    let name = call.trim_start_matches(['+', '*', ':', '?']);
    let sign = call.strip_suffix(name).unwrap_or("");
    let name = Name::from_slice(alloc, name.as_bytes())?;
    answer_name(tables, sign, &name, number)
}

fn say_answer(out: &mut String, answer: Answer) -> Result<(), NoMemory> {
    match answer {
        Answer::Nothing => Ok(()),
        Answer::New(true) => Ok(out.push_str("new ")?),
        Answer::New(false) => Ok(out.push_str("again ")?),
        Answer::Number(Some(number)) => Ok(write!(out, "{number} ")?),
        Answer::Number(None) => Ok(out.push_str("unknown ")?),
    }
}

fn say_all(out: &mut String, tables: &mut Tables, row: &str) -> Result<(), NoMemory> {
    for (number, call) in (0u32..).zip(row.split(' ')) {
        let given = make_call(*out.allocator(), tables, call, number)?;
        say_answer(out, given)?;
    }
    Ok(out.push_str(".\n")?)
}

/// Says the answers of a row.
pub fn say_calls(out: &mut String, row: &str) -> Result<(), NoMemory> {
    let alloc = *out.allocator();
    let mut tables = Tables {
        scopes: Scopes::new(alloc),
        tags: Tags::new(alloc),
        names: Names::new(alloc),
        members: Members::new(alloc),
    };
    say_all(out, &mut tables, row)
}
