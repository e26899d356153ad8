//! Constants and string literals as operands.
#![tactic(auto, using(crate::proofs::LiteralLemmas::literals), unfolding(c_ast::specs::Reader::begun, c_ast::specs::Reader::children, c_ast::specs::Reader::one, c_ast::specs::PredictSets::begins_repeated, c_ast::specs::Grammar::rule, c_ast::specs::Grammar::symbols_of, c_ast::specs::Grammar::repeated, c_ast::specs::Terminals::is))]

ghost use Rattle.std.specs.Prelude.{◌≡◌, Some};
ghost use Rattle.std.specs.Option.{option_copied, option_and_then};
ghost use Rattle.c_ast.specs.Nonterminals.{Many};
ghost use Rattle.c_ast.specs.Expressions.{expr_tree, texts, literal};
ghost use Rattle.c_ast.specs.Productions as production;
ghost use Rattle.c_ast.specs.Terminals.{AnyLiteral, is};
ghost use Rattle.c_ast.specs.Reader.{read, begun, token};
ghost use Rattle.c_ast.specs.PredictSets.{head, at};
ghost use Rattle.c_parse_tokens.specs.Reading.{Gives, number_of, char_of, literal_of};

use crate::{Fault, Tokens, read_list};
use base::Bytes;
use c_ast::{Expr, Literal};
use c_lex::TokenKind;
use sqlite_items::Items;

/// The number that comes next, if one does, and whether it is unsigned.
fn peek_number(tokens: &Tokens) -> Option<(u32, bool)>
    ensures { result ≡ option_and_then number_of (head tokens.now) }
{
    match tokens.peek() {
        Some(TokenKind::Number { value, unsigned }) => Some((*value, *unsigned)),
        _ => None,
    }
}

/// The character constant that comes next, if one does.
fn peek_char(tokens: &Tokens) -> Option<u8>
    ensures { result ≡ option_and_then char_of (head tokens.now) }
{
    match tokens.peek() {
        Some(TokenKind::Char(value)) => Some(*value),
        _ => None,
    }
}

/// The string literal that comes next, if one does.
fn peek_literal<'a>(tokens: &Tokens<'a>) -> Option<&'a Bytes>
    ensures { option_copied result ≡ option_and_then literal_of (head tokens.now) }
{
    match tokens.peek() {
        Some(TokenKind::Text(bytes)) => Some(bytes),
        _ => None,
    }
}

/// Whether a string literal comes next.
fn sees_literal(tokens: &Tokens) -> bool
    ensures { result ≡ at (is AnyLiteral) (head tokens.now) }
{
    matches!(tokens.peek(), Some(TokenKind::Text(_)))
}

/// An integer constant.
pub(crate) fn number(tokens: &mut Tokens, fuel: usize) -> Result<Expr, Fault>
    ensures { Gives expr_tree (begun (read fuel) (Some production.Number) tokens.old) result
        tokens.new }
{
    match peek_number(tokens) {
        Some((value, unsigned)) => {
            let span = tokens.take();
            Ok(Expr::Number {
                value,
                unsigned,
                span,
            })
        }
        None => Err(Fault::Syntax),
    }
}

/// A character constant.
pub(crate) fn character(tokens: &mut Tokens, fuel: usize) -> Result<Expr, Fault>
    ensures { Gives expr_tree (begun (read fuel) (Some production.Character) tokens.old) result
        tokens.new }
{
    match peek_char(tokens) {
        Some(value) => {
            let span = tokens.take();
            Ok(Expr::Char { value, span })
        }
        None => Err(Fault::Syntax),
    }
}

/// A string literal.
pub(crate) fn literal(tokens: &mut Tokens) -> Result<Literal, Fault>
    ensures { Gives literal (token AnyLiteral tokens.old) result tokens.new }
{
    match peek_literal(tokens) {
        Some(bytes) => {
            let bytes = bytes.clone()?;
            let span = tokens.take();
            Ok(Literal { bytes, span })
        }
        None => Err(Fault::Syntax),
    }
}

/// String literals after the first one.
pub(crate) fn more_literals(tokens: &mut Tokens, fuel: usize) -> Result<Items<Literal>, Fault>
    ensures { Gives texts (read fuel (Many production.MoreLiterals) tokens.old) result tokens.new }
{
    if fuel == 0 {
        return Err(Fault::OutOfFuel);
    }
    let mut literals = Items::new(tokens.alloc);
    read_list!(literals, _turn in fuel; sees_literal(tokens); literal(tokens)?)
}
