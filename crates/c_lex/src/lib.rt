//! The lexer: the tokens of a source, or its first lexical fault with its offset. Each token is the
//! longest one that stands there (ISO 9899:2011, 6.4), and each fault is the one that the
//! definition names.
//! Always: offsets of tokens rise and lie within the source.
#![tactic(auto)]

mod classes;
mod digits;
mod fault;
mod keyword;
pub mod laws;
mod lexeme;
mod lexer;
mod number;
mod punct;
mod quoted;
mod runs;
mod token;
mod trivia;

pub use base::{Bytes, Name};
pub use fault::LexFault;
pub use keyword::Keyword;
pub use lexer::lex;
pub use punct::Punct;
pub use token::{Token, TokenKind};
