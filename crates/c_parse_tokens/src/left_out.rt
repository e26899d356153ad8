//! The first keyword that the language leaves out.

ghost use Rattle.std.specs.Prelude.{◌≡◌};
ghost use Rattle.c_parse_tokens.specs.LeftOut.{is_left_out, first_left_out};

use c_lex::{Token, TokenKind};

fn is_left_out(kind: &TokenKind) -> bool
    ensures { result ≡ is_left_out kind.now }
{
    match kind {
        TokenKind::Keyword(keyword) => keyword.is_left_out(),
        _ => false,
    }
}

/// The offset of the first keyword of C that the language leaves out, if there is one.
pub fn first_left_out(tokens: &[Token]) -> Option<u32>
    ensures { result ≡ first_left_out tokens.now }
{
    tokens
        .iter()
        .find(|token| is_left_out(&token.kind))
        .map(|token| token.at)
}
