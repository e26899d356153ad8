//! Tokens. A row is a source, in which `%` and two hexadecimal digits are a byte. Each token is
//! said behind a blank: its sort, its value, and where it begins and ends. Of more than 100 it is
//! said how many they are; of a source that is refused its fault.

use crate::sources::source_of;
use base::{Bytes, NoMemory};
use c_lex::{Keyword, Token, TokenKind, lex};
use std::alloc::Global;

/// The bytes that a text stands for, in which `%` and two hexadecimal digits are a byte.
pub fn bytes_of(alloc: Global, text: &str) -> Result<Vec<u8>, NoMemory> {
    let mut bytes = Vec::new(alloc);
    for (i, part) in text.split('%').enumerate() {
        let part = part.as_bytes();
        if i == 0 {
            bytes.extend_from_slice(part)?;
        } else if let [high, low, rest @ ..] = part {
            bytes.push(digit(*high).wrapping_mul(16).wrapping_add(digit(*low)))?;
            bytes.extend_from_slice(rest)?;
        }
    }
    Ok(bytes)
}

fn digit(letter: u8) -> u8 {
    match letter {
        b'0'..=b'9' => letter.wrapping_sub(b'0'),
        _ => letter.wrapping_sub(b'A').wrapping_add(10),
    }
}

fn say_ascii(out: &mut String, sort: &str, bytes: &[u8]) -> Result<(), NoMemory> {
    out.push_str(sort)?;
    match str::from_utf8(bytes) {
        Ok(text) => Ok(out.push_str(text)?),
        Err(_) => Ok(out.push_str("?")?),
    }
}

// Says the bytes of a copy.
fn say_text(out: &mut String, text: &Bytes) -> Result<(), NoMemory> {
    let bytes = text.clone()?.into_vec();
    Ok(write!(out, "t:{:?}", bytes.as_slice())?)
}

fn say_kind(out: &mut String, kind: &TokenKind) -> Result<(), NoMemory> {
    match kind {
        TokenKind::Name(name) => say_ascii(out, "n:", name.as_slice()),
        TokenKind::Number { value, unsigned } => {
            let suffix = if *unsigned { "u" } else { "i" };
            Ok(write!(out, "{value}{suffix}")?)
        }
        TokenKind::Char(value) => Ok(write!(out, "c:{value}")?),
        TokenKind::Text(text) => say_text(out, text),
        TokenKind::Keyword(keyword) => say_ascii(out, "k:", keyword.spelling()),
        TokenKind::Punct(punct) => say_ascii(out, "", punct.spelling()),
    }
}

// Says a copy of a token, and whether it is another one, or `volatile`, which no row has.
fn say_token(out: &mut String, token: &Token) -> Result<(), NoMemory> {
    out.push_str(" ")?;
    let copy = token.kind.clone()?;
    let is_same = copy == token.kind && copy != TokenKind::Keyword(Keyword::Volatile);
    let said = say_kind(out, &copy);
    drop(copy);
    said?;
    let mark = if is_same { "@" } else { "#" };
    Ok(write!(out, "{mark}{}-{}", token.at, token.end)?)
}

fn say_all(out: &mut String, tokens: &[Token]) -> Result<(), NoMemory> {
    if tokens.len() > 100 {
        return Ok(write!(out, "{} tokens", tokens.len())?);
    }
    for token in tokens {
        say_token(out, token)?;
    }
    Ok(())
}

/// Says the tokens of a row.
pub fn say_tokens(out: &mut String, row: &str) -> Result<(), NoMemory> {
    let alloc = *out.allocator();
    let source = source_of(alloc, row)?;
    let bytes = bytes_of(alloc, source.as_str())?;
    match lex(alloc, bytes.as_slice()) {
        Ok(tokens) => say_all(out, &tokens)?,
        Err(fault) => write!(out, "{fault:?}")?,
    }
    Ok(out.push_str("\n")?)
}
