//! One part of the compiler on an input, for `tools/bench` and `tools/decode.sh`: it lexes, parses,
//! checks, scopes or decodes its input, or makes linear code and places of given shapes.

use crate::lambdas::count_lines;
use crate::places::{Shape, lines};
use a_place::place;
use base::NoMemory;
use c_check::check;
use c_check_scope::{Members, Names, Scopes};
use c_lex::{Punct, Token, TokenKind, lex};
use c_parse::parse;
use rv_isa::decode;
use std::alloc::Global;
use std::env::Args;
use std::io::{self, Read};

/// Reads a source from standard input and tells how many tokens it has, or its fault.
fn count_tokens(rt: &(impl Input + Print + AllocGlobal)) -> io::Result<()> {
    let mut source = Vec::new(rt.alloc());
    rt.reader().read_to_end(&mut source)?;
    match lex(rt.alloc(), &source) {
        Ok(tokens) => println!(rt; "{} tokens", tokens.len()),
        Err(fault) => println!(rt; "{fault:?}"),
    }
}

/// Reads a source from standard input and tells how many declarations it has at file scope, or its
/// fault.
fn count_declarations(rt: &(impl Input + Print + AllocGlobal)) -> io::Result<()> {
    let mut source = Vec::new(rt.alloc());
    rt.reader().read_to_end(&mut source)?;
    let tokens = match lex(rt.alloc(), &source) {
        Ok(tokens) => tokens,
        Err(fault) => return println!(rt; "{fault:?}"),
    };
    let length = u32::try_from(source.len()).unwrap_or(u32::MAX);
    match parse(rt.alloc(), &tokens, length) {
        Ok(unit) => println!(rt; "{} declarations", unit.externals.len()),
        Err(fault) => println!(rt; "{fault}"),
    }
}

/// Reads a source from standard input and tells whether the checker accepts it, or its fault.
fn check_source(rt: &(impl Input + Print + AllocGlobal)) -> io::Result<()> {
    let mut source = Vec::new(rt.alloc());
    rt.reader().read_to_end(&mut source)?;
    let tokens = match lex(rt.alloc(), &source) {
        Ok(tokens) => tokens,
        Err(fault) => return println!(rt; "{fault:?}"),
    };
    let length = u32::try_from(source.len()).unwrap_or(u32::MAX);
    let unit = match parse(rt.alloc(), &tokens, length) {
        Ok(unit) => unit,
        Err(fault) => return println!(rt; "{fault}"),
    };
    match check(rt.alloc(), &unit, length) {
        Ok(_) => println!(rt; "accepted"),
        Err(fault) => println!(rt; "{fault:?}"),
    }
}

/// Declares each name of these tokens in the scope that braces give it, and looks it up. The answer
/// is how many names were new where they stand.
fn declared(alloc: Global, tokens: &[Token]) -> Result<usize, NoMemory> {
    let mut scopes = Scopes::new(alloc);
    let mut count = 0usize;
    for (index, token) in tokens.iter().enumerate() {
        match &token.kind {
            TokenKind::Punct(Punct::LBrace) => scopes.enter()?,
            TokenKind::Punct(Punct::RBrace) => scopes.leave(),
            TokenKind::Name(name) => {
                let is_new = scopes.declare(name, index)?;
                if is_new && scopes.lookup(name) == Some(index) {
                    count = count.wrapping_add(1);
                }
            }
            _ => {}
        }
    }
    Ok(count)
}

/// Makes the names of these tokens the members of a struct, and asks for each name as often as it
/// stands there. The answer is how many are found.
fn members_found(alloc: Global, tokens: &[Token]) -> Result<usize, NoMemory> {
    let mut names = Names::new(alloc);
    for token in tokens {
        if let TokenKind::Name(name) = &token.kind {
            names.insert(name)?;
        }
    }
    let mut members = Members::new(alloc);
    members.define(0, names)?;
    Ok(
        tokens
            .iter()
            .filter(|token| match &token.kind {
                TokenKind::Name(name) => members.number(0, name).is_some(),
                _ => false,
            })
            .count(),
    )
}

/// Reads a source from standard input and tells how many of its names are new in their scopes, or
/// are members of the struct that has them all, or its fault.
fn count_names(rt: &(impl Input + Print + AllocGlobal), are_members: bool) -> io::Result<()> {
    let alloc = rt.alloc();
    let mut source = Vec::new(alloc);
    rt.reader().read_to_end(&mut source)?;
    let tokens = match lex(alloc, &source) {
        Ok(tokens) => tokens,
        Err(fault) => return println!(rt; "{fault:?}"),
    };
    let count = if are_members {
        members_found(alloc, &tokens)
    } else {
        declared(alloc, &tokens)
    };
    match count {
        Ok(count) => println!(rt; "{count} names"),
        Err(NoMemory) => println!(rt; "out of memory"),
    }
}

/// Reads words from standard input, one a line in hexadecimal, and tells the instruction of each.
fn tell_instructions(rt: &(impl Input + Print + AllocGlobal)) -> io::Result<()> {
    for line in rt.lines(rt.alloc()) {
        match u32::from_str_radix(line?.as_str(), 16) {
            Ok(word) => println!(rt; "{:?}", decode(word))?,
            Err(_) => println!(rt; "no word")?,
        }
    }
    Ok(())
}

/// Gives places to the names of lines of a shape, and tells how many there are.
fn count_places(rt: &(impl Print + AllocGlobal), shape: Shape, count: u32) -> io::Result<()> {
    let linear = lines(rt.alloc(), shape, count)?;
    match place(rt.alloc(), &linear) {
        Ok(places) => println!(rt; "{} places", places.count),
        Err(fault) => println!(rt; "{fault}"),
    }
}

fn shape_of(word: &str) -> Option<Shape> {
    match word {
        "alive" => Some(Shape::Alive),
        "dead" => Some(Shape::Dead),
        "staircase" => Some(Shape::Staircase),
        "nest" => Some(Shape::Nest),
        _ => None,
    }
}

/// Reads shapes and sizes of lambdas from standard input, one a line, checks each lambda, and tells
/// how many lines its linear code has, if it is wanted.
fn tell_lines(rt: &(impl Input + Print + AllocGlobal), sequences: bool) -> io::Result<()> {
    for line in rt.lines(rt.alloc()) {
        match count_lines(rt.alloc(), line?.as_str(), sequences) {
            Ok(count) => println!(rt; "{count} lines")?,
            Err(fault) => println!(rt; "{fault}")?,
        }
    }
    Ok(())
}

const USAGE: &str = "usage: c_rows [lex | parse | check | scopes | members | decode | lambda \
    | sequence | place (alive | dead | staircase | nest) COUNT]";

/// Runs the part of this name. The words behind it are a shape and a count, where it takes them.
pub fn run_part(rt: &HostRuntime, part: &str, mut words: Args<Global>) -> io::Result<()> {
    match part {
        "lex" => count_tokens(rt),
        "parse" => count_declarations(rt),
        "check" => check_source(rt),
        "scopes" => count_names(rt, false),
        "members" => count_names(rt, true),
        "decode" => tell_instructions(rt),
        "lambda" => tell_lines(rt, false),
        "sequence" => tell_lines(rt, true),
        "place" => {
            let shape = words.next().and_then(|shape| shape_of(shape.as_str()));
            let count = words.next().and_then(|count| count.parse::<u32>().ok());
            match (shape, count) {
                (Some(shape), Some(count)) => count_places(rt, shape, count),
                _ => eprintln!(rt; "{USAGE}"),
            }
        }
        _ => eprintln!(rt; "{USAGE}"),
    }
}
