//! Character constants and string literals.

ghost use Rattle.std.specs.Prelude.{◌≡◌, ◌≤◌, ◌<◌, ◌+◌, false, length, IfSome, IfOk};
ghost use Rattle.std.specs.Option.{option_and_then, option_map};
ghost use Rattle.base.specs.Limits.{most_source_bytes};
ghost use Rattle.c_lex.specs.Results.{Gives};
ghost use Rattle.c_lex.specs.Quoted as spec;

use crate::digits::{digits_value, is_digit_in};
use crate::lexeme::Lexeme;
use crate::runs::digits_len;
use crate::{LexFault, TokenKind};
use base::Bytes;
use std::alloc::{AllocError, Global};

/// Where the closing quote stands.
#[tactic(auto, using(crate::proofs::Scans::closing_step, crate::proofs::Scans::closing_all, std::proofs::lemmas::Bool::Decides::nat_tests))]
fn closing(quote: u8, text: &[u8]) -> Option<usize>
    ensures offset { result ≡ spec.closing_from quote false 0 text.now }
    ensures within { IfSome result (λ n. n < length text.now) }
{
    let mut taken = false;
    for (i, b) in text.iter().enumerate() {
        if *b == b'\n' {
            return None;
        }
        if taken {
            taken = false;
        } else if *b == quote {
            return Some(i);
        } else {
            taken = *b == b'\\';
        }
    }
    None
}

#[tactic(auto, unfolding(crate::specs::Quoted::simple_escape))]
fn simple_escape(b: u8) -> Option<u8>
    ensures { result ≡ spec.simple_escape b }
{
    match b {
        b'n' => Some(b'\n'),
        b't' => Some(b'\t'),
        b'r' => Some(b'\r'),
        b'a' => Some(7),
        b'b' => Some(8),
        b'f' => Some(12),
        b'v' => Some(11),
        b'\\' | b'\'' | b'"' | b'?' => Some(b),
        _ => None,
    }
}

fn digits_escape(base: u32, bytes: usize, digits: &[u8]) -> Option<(u8, usize)>
    requires { 0 < base }
    ensures { result ≡ spec.digits_escape base bytes digits.now }
{
    let value = digits_value(base, digits)?;
    if value > 255 {
        return None;
    }
    Some((value as u8, bytes))
}

/// The value and the length of an escape after its backslash.
#[tactic(auto, unfolding(crate::specs::Quoted::escape_at))]
fn escape_at(text: &[u8]) -> Option<(u8, usize)>
    requires { length text.now ≤ most_source_bytes }
    ensures escape { result ≡ spec.escape_at text.now }
    ensures within { IfSome result (λ e. e.1 ≤ length text.now) }
{
    let first = *text.first()?;
    if is_digit_in(8, first) {
        let n = digits_len(8, &text[..text.len().min(3)]);
        return digits_escape(8, n, &text[..n]);
    }
    if first == b'x' {
        let digits = &text[1..];
        let n = digits_len(16, digits);
        if n == 0 {
            return None;
        }
        return digits_escape(16, n + 1, &digits[..n]);
    }
    let value = simple_escape(first)?;
    Some((value, 1))
}

/// The value and the length of the character at the front.
#[tactic(auto, unfolding(crate::specs::Quoted::character_at))]
fn character_at(text: &[u8]) -> Option<(u8, usize)>
    requires { length text.now ≤ most_source_bytes }
    ensures character { result ≡ spec.character_at text.now }
    ensures within { IfSome result (λ c. (0 < c.1) × (c.1 ≤ length text.now)) }
{
    let first = *text.first()?;
    if first != b'\\' {
        return Some((first, 1));
    }
    let (value, n) = escape_at(&text[1..])?;
    Some((value, n + 1))
}

/// The one character that the characters between quotes stands for.
#[tactic(auto, using(crate::proofs::Characters::only_none, crate::proofs::Characters::only_whole, crate::proofs::Characters::only_part))]
fn only_character(text: &[u8]) -> Option<u8>
    requires { length text.now ≤ most_source_bytes }
    ensures { result ≡ option_and_then spec.only (spec.characters 0 text.now) }
{
    let (value, n) = character_at(text)?;
    if n == text.len() { Some(value) } else { None }
}

/// The characters that the characters between quotes stands for.
fn characters(alloc: Global, text: &[u8]) -> Result<Option<Vec<u8>>, AllocError>
    requires { length text.now ≤ most_source_bytes }
    ensures { IfOk result (λ found. option_map (λ v. v.items) found ≡ spec.characters 0 text.now) }
{
    let mut values = Vec::new(alloc);
    let mut at = 0;
    while at < text.len() {
        match character_at(&text[at..]) {
            Some((value, n)) => {
                values.push(value)?;
                at += n;
            }
            None => return Ok(None),
        }
    }
    Ok(Some(values))
}

/// A character constant after its opening quote, which stands at `at`.
#[tactic(auto, unfolding(crate::specs::Quoted::char_at))]
pub(crate) fn char_at(at: u32, text: &[u8]) -> Result<Lexeme, LexFault>
    requires { length text.now ≤ most_source_bytes }
    ensures { result ≡ spec.char_at at text.now }
{
    let n = closing(b'\'', text).ok_or(LexFault::OpenText(at))?;
    let value = only_character(&text[..n]).ok_or(LexFault::BadText(at))?;
    Ok(Lexeme::Token(TokenKind::Char(value), n + 2))
}

/// A string literal after its opening quote, which stands at `at`.
#[tactic(auto, unfolding(crate::specs::Quoted::string_at))]
pub(crate) fn string_at(alloc: Global, at: u32, text: &[u8]) -> Result<Lexeme, LexFault>
    requires { length text.now ≤ most_source_bytes }
    ensures { Gives (λ i. i) result (spec.string_at at text.now) }
{
    let n = closing(b'"', text).ok_or(LexFault::OpenText(at))?;
    let values = characters(alloc, &text[..n])?.ok_or(LexFault::BadText(at))?;
    let kind = TokenKind::Text(Bytes::from_vec(values));
    Ok(Lexeme::Token(kind, n + 2))
}
