//! What stands at the front of a text.

ghost use Rattle.std.specs.Prelude.{◌≡◌, ◌≤◌, ◌<◌, ◌+◌, length, IfOk};
ghost use Rattle.base.specs.Limits.{most_source_bytes};
ghost use Rattle.c_lex.specs.Keywords.{keyword_of};
ghost use Rattle.c_lex.specs.Results.{Gives};
ghost use Rattle.c_lex.specs.Lexemes as spec;
ghost use Rattle.c_lex.specs.Punctuators.{punct_at};

use crate::classes::{is_digit, is_inner_blank, is_letter};
use crate::number::number_at;
use crate::quoted::{char_at, string_at};
use crate::runs::identifier_len;
use crate::trivia::{comment_at, include_len, line_comment};
use crate::{Keyword, LexFault, Punct, TokenKind};
use base::{MOST_NAME_BYTES, Name};
use std::alloc::{AllocError, Global};

/// What stands at the front of a text, with the number of its bytes.
#[derive(Debug, Drop)]
pub(crate) enum Lexeme {
    /// A blank, a comment, or the end of a line with the include line after it.
    Trivia(usize),
    Token(TokenKind, usize),
}

/// What the first byte of a text begins.
#[derive(Clone, Copy, Debug, PartialEq, Eq)]
pub(crate) enum Start {
    LineEnd,
    Blank,
    Letter,
    Digit,
    Quote,
    DoubleQuote,
    Hash,
    Slash,
    Other,
}

#[tactic(auto, unfolding(crate::specs::Lexemes::start_of))]
fn start_of(b: u8) -> Start
    ensures { result ≡ spec.start_of b }
{
    match b {
        b'\n' => Start::LineEnd,
        b'\'' => Start::Quote,
        b'"' => Start::DoubleQuote,
        b'#' => Start::Hash,
        b'/' => Start::Slash,
        _ if is_inner_blank(b) => Start::Blank,
        _ if is_letter(b) => Start::Letter,
        _ if is_digit(b) => Start::Digit,
        _ => Start::Other,
    }
}

/// A keyword where the bytes spell one, else a name.
fn identifier_kind(alloc: Global, bytes: &[u8]) -> Result<TokenKind, AllocError>
    ensures { IfOk result (λ k. k ≡ spec.identifier_kind_of bytes.now (keyword_of bytes.now)) }
{
    match Keyword::from_bytes(bytes) {
        Some(keyword) => Ok(TokenKind::Keyword(keyword)),
        None => Ok(TokenKind::Name(Name::from_slice(alloc, bytes)?)),
    }
}

#[tactic(auto, unfolding(crate::specs::Lexemes::identifier_at))]
fn identifier_at(alloc: Global, at: u32, text: &[u8]) -> Result<Lexeme, LexFault>
    ensures { Gives (λ i. i) result (spec.identifier_at at text.now) }
{
    let n = identifier_len(text);
    if n > MOST_NAME_BYTES {
        return Err(LexFault::LongName(at));
    }
    let kind = identifier_kind(alloc, &text[..n])?;
    Ok(Lexeme::Token(kind, n))
}

fn punct_lexeme(at: u32, text: &[u8]) -> Result<Lexeme, LexFault>
    ensures { result ≡ spec.punct_lexeme at (punct_at text.now) }
{
    match Punct::at_front(text) {
        Some(punct) => Ok(Lexeme::Token(TokenKind::Punct(punct), punct.spelling().len())),
        None => Err(LexFault::BadByte(at)),
    }
}

#[tactic(auto, unfolding(crate::specs::Lexemes::slash_at))]
fn slash_at(at: u32, text: &[u8]) -> Result<Lexeme, LexFault>
    requires { length text.now ≤ most_source_bytes }
    ensures { result ≡ spec.slash_at at text.now }
{
    if text.starts_with(b"/*") {
        comment_at(at, &text[2..])
    } else if text.starts_with(b"//") {
        Ok(line_comment(&text[2..]))
    } else {
        punct_lexeme(at, text)
    }
}

/// What stands at the front of a text that begins at `at`.
#[tactic(auto, unfolding(crate::specs::Lexemes::lexeme_of))]
pub(crate) fn lexeme_at(alloc: Global, at: u32, text: &[u8]) -> Result<Lexeme, LexFault>
    requires some { 0 < length text.now }
    requires short { length text.now ≤ most_source_bytes }
    ensures { Gives (λ i. i) result (spec.lexeme_at at text.now) }
{
    match start_of(text[0]) {
        Start::LineEnd => Ok(Lexeme::Trivia(include_len(&text[1..]) + 1)),
        Start::Blank => Ok(Lexeme::Trivia(1)),
        Start::Letter => identifier_at(alloc, at, text),
        Start::Digit => number_at(at, text),
        Start::Quote => char_at(at, &text[1..]),
        Start::DoubleQuote => string_at(alloc, at, &text[1..]),
        Start::Hash => Err(LexFault::Directive(at)),
        Start::Slash => slash_at(at, text),
        Start::Other => punct_lexeme(at, text),
    }
}
