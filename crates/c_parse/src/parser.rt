//! The parser as one call: from tokens to the tree of the translation unit, or to its fault.
#![tactic(auto, using(crate::proofs::ParserAnswers::parser_answers))]

ghost use Rattle.c_parse.specs.Refusal.{Answers};

use crate::external::unit;
use crate::fault::ParseFault;
use c_ast::Unit;
use c_lex::Token;
use c_parse_tokens::{Fault, Tokens, first_left_out, first_too_deep};
use std::alloc::Global;

/// The tree of the tokens of a source of `length` bytes.
///
/// A keyword that is left out is reported before nesting that is too deep, and that before a token
/// with which no program goes on, or the end of the source where the tokens are only the beginning
/// of programs.
pub fn parse(alloc: Global, tokens: &[Token], length: u32) -> Result<Unit, ParseFault>
    ensures { Answers tokens.now length result }
{
    if let Some(at) = first_left_out(tokens) {
        return Err(ParseFault::LeftOut(at));
    }
    if let Some(at) = first_too_deep(tokens) {
        return Err(ParseFault::TooDeep(at));
    }
    let mut rest = Tokens::new(alloc, tokens);
    match unit(&mut rest, 16 * (tokens.len() + 1)) {
        Ok(unit) if rest.is_empty() => Ok(unit),
        Ok(_) | Err(Fault::Syntax) => Err(ParseFault::Syntax(rest.offset(length))),
        Err(Fault::OutOfFuel) => unreachable!(),
        Err(Fault::NoMemory) => Err(ParseFault::NoMemory),
    }
}
