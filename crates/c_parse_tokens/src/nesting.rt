//! How deep the tokens are nested.
#![tactic(auto, using(crate::proofs::Counters::counters), unfolding(c_ast::specs::Terminals::is, c_ast::specs::Terminals::keyword_number))]

ghost use Rattle.std.specs.Prelude.{◌≡◌, ◌≤◌, ◌<◌, [], ◌∷◌, MatchOption, Some};
ghost use Rattle.c_ast.specs.Nesting.{raised, popped, ended, after_mark, after_token, is_counted, depth_of, depth};
ghost use Rattle.c_ast.specs.Spelling.{kinds};
ghost use Rattle.c_ast.specs.Terminals.{is, ThisKeyword};
ghost use Rattle.c_ast.specs.PredictSets.{head, at};
ghost use Rattle.base.specs.Limits.{most_nesting};
ghost use Rattle.c_lex.specs.declared.keyword.Keyword.TheVariants as word;
ghost use Rattle.c_parse_tokens.specs.Counters.{cleared};
ghost use Rattle.c_parse_tokens.specs.TooDeep.{FirstTooDeep};

use base::MOST_NESTING;
use c_lex::{Keyword, Punct, Token, TokenKind};
use std::marker::Model;

const MAX_DEPTH: u8 = MOST_NESTING as u8;

/// A stack of counters. The depth is their sum, and their number less one.
#[derive(Drop)]
struct Counters {
    counts: [u8; 203],
    top: usize,
    depth: u8,
}

impl Model for Counters {
    ghost use Rattle.std.specs.Prelude.{◌≡◌, ◌<◌, ℕ, List};
    ghost use Rattle.c_ast.specs.Nesting.{depth_of};
    ghost use Rattle.c_parse_tokens.specs.Counters.{stack};

    ghost Value = { List ℕ };

    ghost view = { λ c. stack c.counts c.top };

    ghost invariant = { λ c. (c.top < 203) × (c.depth ≡ depth_of (stack c.counts c.top)) };
}

impl Counters {
    fn new() -> Self
        ensures { result ≡ 0 ∷ [] }
    {
        Counters {
            counts: [0; 203],
            top: 0,
            depth: 0,
        }
    }

    fn depth(&self) -> u8
        ensures { result ≡ depth_of self.now }
    {
        self.depth
    }

    fn raise(&mut self)
        requires { depth_of self.old ≤ 201 }
        ensures { self.new ≡ raised self.old }
    {
        self.counts[self.top] += 1;
        self.depth += 1;
    }

    fn push(&mut self)
        requires { depth_of self.old ≤ 201 }
        ensures { self.new ≡ 0 ∷ self.old }
    {
        self.top += 1;
        self.counts[self.top] = 0;
        self.depth += 1;
    }

    /// Takes the top counter away, unless one is left.
    fn pop(&mut self)
        ensures { self.new ≡ popped self.old }
    {
        if self.top > 0 {
            self.depth -= self.counts[self.top] + 1;
            self.top -= 1;
        }
    }

    fn clear(&mut self)
        ensures { self.new ≡ cleared self.old }
    {
        self.depth -= self.counts[self.top];
        self.counts[self.top] = 0;
    }

    /// At the end of a construct, before the tokens `rest`.
    fn end(&mut self, rest: &[Token])
        ensures { self.new ≡ ended (kinds rest.now) self.old }
    {
        if !begins_with_else(rest) {
            self.clear();
        }
    }

    fn pass_mark(&mut self, punct: Punct, rest: &[Token])
        requires { depth_of self.old ≤ 200 }
        ensures { self.new ≡ after_mark punct (kinds rest.now) self.old }
    {
        match punct {
            Punct::LParen | Punct::LBracket => {
                self.raise();
                self.push();
            }
            Punct::LBrace => self.push(),
            Punct::RParen | Punct::RBracket => self.pop(),
            Punct::RBrace => {
                self.pop();
                self.end(rest);
            }
            Punct::Semicolon | Punct::Comma => self.end(rest),
            _ => self.raise(),
        }
    }

    /// Passes a token, before the tokens `rest`.
    fn pass(&mut self, kind: &TokenKind, rest: &[Token])
        requires { depth_of self.old ≤ 200 }
        ensures { self.new ≡ after_token kind.now (kinds rest.now) self.old }
    {
        match kind {
            TokenKind::Punct(punct) => self.pass_mark(*punct, rest),
            _ => {
                if is_counted(kind) {
                    self.raise();
                }
            }
        }
    }
}

fn begins_with_else(tokens: &[Token]) -> bool
    ensures { result ≡ at (is (ThisKeyword word.Else)) (head tokens.now) }
{
    match tokens {
        [first, ..] => matches!(first.kind, TokenKind::Keyword(Keyword::Else)),
        [] => false,
    }
}

/// Whether a token is a keyword that counts.
fn is_counted(kind: &TokenKind) -> bool
    ensures { result ≡ is_counted kind.now }
{
    matches!(
        kind,
        TokenKind::Keyword(
            Keyword::If
                | Keyword::Else
                | Keyword::While
                | Keyword::Do
                | Keyword::For
                | Keyword::Sizeof
                | Keyword::Switch
        )
    )
}

/// The offset of the first token after which the nesting is deeper than 200, if there is one.
pub fn first_too_deep(tokens: &[Token]) -> Option<u32>
    ensures { MatchOption result (depth (kinds tokens.now) ≤ most_nesting) (λ at. FirstTooDeep
        tokens.now at) }
{
    let mut counters = Counters::new();
    for (i, token) in tokens.iter().enumerate() {
        counters.pass(&token.kind, &tokens[i + 1..]);
        if counters.depth() > MAX_DEPTH {
            return Some(token.at);
        }
    }
    None
}
