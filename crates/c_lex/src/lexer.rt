//! From a source to its tokens.

ghost use Rattle.std.specs.Prelude.{◌≡◌, ◌≤◌, ◌<◌, ◌+◌, length, vec_len, IfOk};
ghost use Rattle.base.specs.Limits.{most_source_bytes, most_tokens};
ghost use Rattle.c_lex.specs.Results.{Gives};
ghost use Rattle.c_lex.specs.Lexemes.{lexeme_at, lexeme_len};
ghost use Rattle.c_lex.specs.Tokens.{counted, lexed};

use crate::lexeme::{Lexeme, lexeme_at};
use crate::trivia::include_len;
use crate::{LexFault, Token};
use base::{MOST_SOURCE_BYTES, MOST_TOKENS};
use std::alloc::Global;

/// The lexeme, or the fault of one token too many.
fn counted(count: usize, at: u32, scanned: Result<Lexeme, LexFault>) -> Result<Lexeme, LexFault>
    ensures { result ≡ counted count at scanned }
{
    match scanned {
        Ok(Lexeme::Token(kind, n)) if count < MOST_TOKENS => Ok(Lexeme::Token(kind, n)),
        Err(LexFault::BadNumber(offset)) if count < MOST_TOKENS => Err(LexFault::BadNumber(offset)),
        Ok(Lexeme::Token(..)) | Err(LexFault::BadNumber(_)) => Err(LexFault::ManyTokens(at)),
        scanned => scanned,
    }
}

/// What stands at the front of a text that begins at `at`, after `count` tokens.
fn next_lexeme(alloc: Global, count: usize, at: u32, text: &[u8]) -> Result<Lexeme, LexFault>
    requires some { 0 < length text.now }
    requires short { length text.now ≤ most_source_bytes }
    ensures scanned { Gives (λ i. i) result (counted count at (lexeme_at at text.now)) }
    ensures within { IfOk result (λ i. (0 < lexeme_len i) × (lexeme_len i ≤ length text.now)) }
{
    counted(count, at, lexeme_at(alloc, at, text))
}

/// The tokens of a source, in the order in which they stand (ISO 9899:2011, 6.4).
///
/// A fault is the one at the least offset, but `LongSource` comes before all others, and `NoMemory`
/// may come in place of any answer.
pub fn lex(alloc: Global, source: &[u8]) -> Result<Vec<Token>, LexFault>
    ensures exact { Gives (λ v. v.items) result (lexed source.now) }
    ensures few { IfOk result (λ v. vec_len v ≤ most_tokens) }
{
    if source.len() > MOST_SOURCE_BYTES {
        return Err(LexFault::LongSource(MOST_SOURCE_BYTES as u32));
    }
    let mut tokens = Vec::new(alloc);
    let mut at = include_len(source);
    while at < source.len() {
        let offset = at as u32;
        match next_lexeme(alloc, tokens.len(), offset, &source[at..])? {
            Lexeme::Trivia(n) => at += n,
            Lexeme::Token(kind, n) => {
                let end = (at + n) as u32;
                tokens.push(Token {
                    kind,
                    at: offset,
                    end,
                })?;
                at += n;
            }
        }
    }
    Ok(tokens)
}
