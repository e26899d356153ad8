//! Integer constants.

ghost use Rattle.std.specs.Prelude.{◌≡◌, ◌<◌};
ghost use Rattle.c_lex.specs.Numbers as spec;
ghost use Rattle.c_lex.specs.Digits.{digits_value};

use crate::digits::digits_value;
use crate::lexeme::Lexeme;
use crate::runs::{digits_len, number_len};
use crate::{LexFault, TokenKind};

/// Whether `u` or `U` stands after the digits; none where anything else does.
fn suffix(text: &[u8]) -> Option<bool>
    ensures { result ≡ spec.suffix text.now }
{
    match text {
        [] => Some(false),
        [b'u' | b'U'] => Some(true),
        _ => None,
    }
}

fn typed(base: u32, at: u32, value: u32, unsigned: bool) -> Result<TokenKind, LexFault>
    ensures { result ≡ spec.typed base at value unsigned }
{
    let high = value > 2147483647;
    if base == 10 && !unsigned && high {
        return Err(LexFault::TooWide(at));
    }
    Ok(TokenKind::Number {
        value,
        unsigned: unsigned || high,
    })
}

#[tactic(auto, unfolding(crate::specs::Numbers::digits_at))]
fn digits_at(base: u32, at: u32, text: &[u8]) -> Result<TokenKind, LexFault>
    requires { 0 < base }
    ensures { result ≡ spec.digits_at base at text.now }
{
    let n = digits_len(base, text);
    if n == 0 {
        return Err(LexFault::BadNumber(at));
    }
    let (digits, rest) = text.split_at(n);
    let unsigned = suffix(rest).ok_or(LexFault::BadNumber(at))?;
    let value = digits_value(base, digits).ok_or(LexFault::TooWide(at))?;
    typed(base, at, value, unsigned)
}

#[tactic(auto, unfolding(crate::specs::Numbers::constant_at))]
fn constant_at(at: u32, run: &[u8]) -> Result<TokenKind, LexFault>
    ensures { result ≡ spec.constant_at at run.now }
{
    if run.starts_with(b"0x") || run.starts_with(b"0X") {
        digits_at(16, at, &run[2..])
    } else if run.starts_with(b"0") {
        digits_at(8, at, run)
    } else {
        digits_at(10, at, run)
    }
}

/// A number at the front of a text that begins at `at`.
#[tactic(auto, unfolding(crate::specs::Numbers::number_at))]
pub(crate) fn number_at(at: u32, text: &[u8]) -> Result<Lexeme, LexFault>
    ensures { result ≡ spec.number_at at text.now }
{
    let n = number_len(text);
    let kind = constant_at(at, &text[..n])?;
    Ok(Lexeme::Token(kind, n))
}
