//! What stands between tokens.

ghost use Rattle.std.specs.Prelude.{◌≡◌, ◌≤◌, ◌+◌, length, IfSome};
ghost use Rattle.std.specs.Option.{option_copied};
ghost use Rattle.base.specs.Limits.{most_source_bytes};
ghost use Rattle.c_lex.specs.Trivia as spec;

use crate::LexFault;
use crate::lexeme::Lexeme;
use crate::runs::{blanks_len, line_len};

/// Where the first `*/` ends.
#[tactic(auto, using(crate::proofs::Scans::comment_step, crate::proofs::Scans::comment_all, std::proofs::lemmas::Bool::Decides::nat_tests))]
fn comment_end(text: &[u8]) -> Option<usize>
    ensures offset { result ≡ spec.comment_end 0 text.now }
    ensures within { IfSome result (λ n. n ≤ length text.now) }
{
    for i in 0..text.len() {
        if text[i..].starts_with(b"*/") {
            return Some(i + 2);
        }
    }
    None
}

/// A comment after its `/*`, which begins at `at`.
#[tactic(auto, unfolding(crate::specs::Trivia::comment_at))]
pub(crate) fn comment_at(at: u32, text: &[u8]) -> Result<Lexeme, LexFault>
    requires { length text.now ≤ most_source_bytes }
    ensures { result ≡ spec.comment_at at text.now }
{
    let n = comment_end(text).ok_or(LexFault::OpenComment(at))?;
    Ok(Lexeme::Trivia(n + 2))
}

/// A comment after its `//`.
#[tactic(auto, unfolding(crate::specs::Trivia::line_comment))]
pub(crate) fn line_comment(text: &[u8]) -> Lexeme
    requires { length text.now ≤ most_source_bytes }
    ensures { result ≡ spec.line_comment text.now }
{
    Lexeme::Trivia(line_len(text) + 2)
}

fn past_blanks(text: &[u8]) -> &[u8]
    ensures { result.now ≡ spec.past_blanks text.now }
{
    &text[blanks_len(text)..]
}

fn past_header(text: &[u8]) -> Option<&[u8]>
    ensures { option_copied result ≡ spec.past_header text.now }
{
    if text.starts_with(b"<stdio.h>") {
        Some(&text[9..])
    } else if text.starts_with(b"<stdlib.h>") {
        Some(&text[10..])
    } else {
        None
    }
}

fn ends_line(text: &[u8]) -> bool
    ensures { result ≡ spec.ends_line text.now }
{
    match text {
        [] => true,
        [b, ..] => *b == b'\n',
    }
}

/// What follows an include line.
#[tactic(auto, unfolding(crate::specs::Trivia::past_include))]
fn past_include(line: &[u8]) -> Option<&[u8]>
    ensures { option_copied result ≡ spec.past_include line.now }
{
    let directive = past_blanks(line).strip_prefix(b"#")?;
    let header = past_blanks(directive).strip_prefix(b"include")?;
    let rest = past_blanks(past_header(past_blanks(header))?);
    if ends_line(rest) { Some(rest) } else { None }
}

/// How many bytes of the text are an include line.
pub(crate) fn include_len(line: &[u8]) -> usize
    ensures bytes { result ≡ spec.include_len line.now }
    ensures within { result ≤ length line.now }
{
    match past_include(line) {
        Some(rest) => line.len().saturating_sub(rest.len()),
        None => 0,
    }
}
