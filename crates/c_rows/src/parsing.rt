//! Trees. A row is a source (`sources`), of which it is said whether it is a program, or why not.
//! Where it begins with `#`, that is said once for each number of first tokens, as if the source
//! ended after them.

use crate::sources::{length_of, source_of};
use base::NoMemory;
use c_lex::{Token, lex};
use c_parse::{ParseFault, parse};

// Says the answer on tokens of a source of this length.
fn say_tree(out: &mut String, tokens: &[Token], length: u32) -> Result<(), NoMemory> {
    match parse(*out.allocator(), tokens, length) {
        Ok(_) => Ok(out.push_str("a program\n")?),
        Err(ParseFault::LeftOut(at)) => Ok(write!(out, "LeftOut {at}\n")?),
        Err(ParseFault::TooDeep(at)) => Ok(write!(out, "TooDeep {at}\n")?),
        Err(ParseFault::Syntax(at)) => Ok(write!(out, "Syntax {at}\n")?),
        Err(ParseFault::NoMemory) => Err(NoMemory),
    }
}

// Says the answers on the first tokens, or on all alone.
fn say_trees(
    out: &mut String,
    tokens: &[Token],
    length: u32,
    is_cut: bool,
) -> Result<(), NoMemory> {
    let from = if is_cut { 0 } else { tokens.len() };
    for n in from..=tokens.len() {
        say_tree(out, &tokens[..n], length)?;
    }
    Ok(())
}

/// Says the answers on a row.
pub fn say_parsed(out: &mut String, row: &str) -> Result<(), NoMemory> {
    let alloc = *out.allocator();
    let text = row.strip_prefix('#').unwrap_or(row);
    let source = source_of(alloc, text)?;
    match lex(alloc, source.as_bytes()) {
        Ok(tokens) => {
            let is_cut = text.len() < row.len();
            say_trees(out, &tokens, length_of(source.as_str()), is_cut)
        }
        Err(fault) => Ok(write!(out, "{fault:?}\n")?),
    }
}
