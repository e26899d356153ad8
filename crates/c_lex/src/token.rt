//! Tokens, their kinds, and the offsets at which they stand.

use crate::{Keyword, Punct};
use base::{Bytes, Name};

/// A token and where it stands in the source: its bytes are those from `at` up to `end`.
#[derive(Clone, Debug, Drop, PartialEq, Eq)]
pub struct Token {
    /// What it is.
    pub kind: TokenKind,
    /// The offset of its first byte.
    pub at: u32,
    /// The offset after its last byte.
    pub end: u32,
}

/// What a token is (ISO 9899:2011, 6.4).
#[derive(Clone, Debug, Drop, PartialEq, Eq)]
pub enum TokenKind {
    /// An identifier that is no keyword, of at most 63 bytes (6.4.2).
    Name(Name),
    /// An integer constant (6.4.4.1). `unsigned` is true where its type is `unsigned int`, and
    /// false where it is `int`.
    Number { value: u32, unsigned: bool },
    /// A character constant (6.4.4.4).
    Char(u8),
    /// A string literal, without a closing zero (6.4.5).
    Text(Bytes),
    /// A keyword (6.4.1).
    Keyword(Keyword),
    /// A punctuator (6.4.6).
    Punct(Punct),
}
