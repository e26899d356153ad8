//! The tokens that are still to be read, and the reading of single ones.
#![tactic(auto, using(crate::proofs::lemmas::Reads::heads), unfolding(c_ast::specs::Terminals::is, c_ast::specs::Terminals::mark_number, c_ast::specs::Terminals::keyword_number))]

ghost use Rattle.std.specs.Prelude.{◌≡◌, ◌↔◌, [], IsTrue, IsSome, drop};
ghost use Rattle.std.specs.Option.{option_copied, option_and_then};
ghost use Rattle.c_ast.specs.Nodes.{mark, word, name};
ghost use Rattle.c_ast.specs.Terminals.{Mark, ThisKeyword, AnyName, is};
ghost use Rattle.c_ast.specs.Terminals as spec;
ghost use Rattle.c_ast.specs.Reader.{token};
ghost use Rattle.c_ast.specs.PredictSets.{head, at};
ghost use Rattle.c_parse_tokens.specs.Reading.{offset_of, Gives, Takes, name_of};

use crate::fault::Fault;
use base::Name;
use c_ast::{Identifier, Span};
use c_lex::{Keyword, Punct, Token, TokenKind};
use std::alloc::Global;
use std::marker::Model;

/// The tokens that are still to be read.
#[derive(Drop)]
pub struct Tokens<'a> {
    pub alloc: Global,
    rest: &'a [Token],
}

impl<'a> Model for Tokens<'a> {
    ghost use Rattle.std.specs.Prelude.{List};
    ghost use Rattle.c_lex.specs.declared.token.Token.{Token};

    ghost Value = { List Token };

    ghost view = { λ t. t.rest.now };
}

impl<'a> Tokens<'a> {
    /// A reader at the first of these tokens.
    pub fn new(alloc: Global, tokens: &'a [Token]) -> Tokens<'a>
        ensures { result ≡ tokens.now }
    {
        Tokens {
            alloc,
            rest: tokens,
        }
    }

    /// The kind of the next token.
    pub fn peek(&self) -> Option<&'a TokenKind>
        ensures { option_copied result ≡ head self.now }
    {
        match self.rest {
            [first, ..] => Some(&first.kind),
            [] => None,
        }
    }

    /// The kind of the token after the next one.
    pub fn peek_second(&self) -> Option<&'a TokenKind>
        ensures { option_copied result ≡ head (drop 1 self.now) }
    {
        match self.rest {
            [_, second, ..] => Some(&second.kind),
            _ => None,
        }
    }

    /// Whether every token has been read.
    pub fn is_empty(&self) -> bool
        ensures { IsTrue result ↔ (self.now ≡ []) }
    {
        self.rest.is_empty()
    }

    /// Where the next token stands, or the end of the source where there is none.
    pub fn offset(&self, length: u32) -> u32
        ensures { result ≡ offset_of self.now length }
    {
        match self.rest {
            [first, ..] => first.at,
            [] => length,
        }
    }

    /// Takes the next token.
    pub fn take(&mut self) -> Span
        requires { IsSome (head self.old) }
        ensures { Takes self.old result self.new }
    {
        let first = &self.rest[0];
        self.rest = &self.rest[1..];
        Span {
            at: first.at,
            end: first.end,
        }
    }

    /// Whether the next token is this punctuator.
    pub fn sees(&self, punct: Punct) -> bool
        ensures { result ≡ at (is (Mark punct)) (head self.now) }
    {
        match self.peek() {
            Some(TokenKind::Punct(next)) => mark_number(punct) == mark_number(*next),
            _ => false,
        }
    }

    /// Whether the next token is this keyword.
    pub fn sees_keyword(&self, keyword: Keyword) -> bool
        ensures { result ≡ at (is (ThisKeyword keyword)) (head self.now) }
    {
        match self.peek() {
            Some(TokenKind::Keyword(next)) => keyword_number(keyword) == keyword_number(*next),
            _ => false,
        }
    }

    /// Takes this punctuator, which has to come next.
    pub fn expect(&mut self, punct: Punct) -> Result<Span, Fault>
        ensures { Gives (mark punct) (token (Mark punct) self.old) result self.new }
    {
        if self.sees(punct) {
            Ok(self.take())
        } else {
            Err(Fault::Syntax)
        }
    }

    /// Takes this keyword, which has to come next.
    pub fn expect_keyword(&mut self, keyword: Keyword) -> Result<Span, Fault>
        ensures { Gives (word keyword) (token (ThisKeyword keyword) self.old) result self.new }
    {
        if self.sees_keyword(keyword) {
            Ok(self.take())
        } else {
            Err(Fault::Syntax)
        }
    }

    /// The name that comes next, if one does.
    fn peek_name(&self) -> Option<&'a Name>
        ensures { option_copied result ≡ option_and_then name_of (head self.now) }
    {
        match self.peek() {
            Some(TokenKind::Name(name)) => Some(name),
            _ => None,
        }
    }

    /// Takes a name, which has to come next.
    pub fn identifier(&mut self) -> Result<Identifier, Fault>
        ensures { Gives name (token AnyName self.old) result self.new }
    {
        match self.peek_name() {
            Some(name) => {
                let name = name.clone()?;
                Ok(Identifier {
                    name,
                    span: self.take(),
                })
            }
            None => Err(Fault::Syntax),
        }
    }
}

fn mark_number(punct: Punct) -> u8
    ensures { result ≡ spec.mark_number punct }
{
    punct as u8
}

fn keyword_number(keyword: Keyword) -> u8
    ensures { result ≡ spec.keyword_number keyword }
{
    keyword as u8
}
