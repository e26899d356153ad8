//! Expressions, by the looseness of their operators (ISO 9899:2011, 6.5).
#![tactic(auto, using(crate::proofs::lemmas::Expressions::expressions), unfolding(c_ast::specs::Reader::first, c_ast::specs::Reader::begun, c_ast::specs::Reader::later, c_ast::specs::Reader::children, c_ast::specs::Reader::one, c_ast::specs::Reader::step, c_ast::specs::Reader::turns, c_ast::specs::Reader::goes_on, c_ast::specs::PredictSets::start, c_ast::specs::PredictSets::next, c_ast::specs::PredictSets::begins_optional, c_ast::specs::PredictSets::begins_repeated, c_ast::specs::Grammar::rule, c_ast::specs::Grammar::symbols_of, c_ast::specs::Grammar::optional, c_ast::specs::Grammar::repeated, crate::specs::Operands::nonterminal_of, c_ast::specs::Expressions::type_tree, c_ast::specs::Expressions::list_children, c_ast::specs::Expressions::dimension_children))]

ghost use Rattle.std.specs.Prelude.{◌≡◌, ◌-◌, Some};
ghost use Rattle.c_lex.specs.declared.token.TokenKind.TheVariants as kind;
ghost use Rattle.c_ast.specs.Nonterminals as nonterminal;
ghost use Rattle.c_ast.specs.Nonterminals.{Opt, Many};
ghost use Rattle.c_ast.specs.Expressions.{expr_tree, list_tree, list_children, next, type_tree, dimensions, literal};
ghost use Rattle.c_ast.specs.Productions as production;
ghost use Rattle.c_ast.specs.Nodes.{opt, many};
ghost use Rattle.c_ast.specs.Reader.{read, first, later, turns, begun};
ghost use Rattle.c_ast.specs.PredictSets.{head};
ghost use Rattle.c_parse_tokens.specs.Operands.{nonterminal_of, suffix_production, suffix_mark};
ghost use Rattle.c_ast.specs.Operators.{selection_production, inc_dec_mark, unary_mark, binary_mark, binary_level, assign_mark};
ghost use Rattle.c_parse_tokens.specs.Reading.{Gives};

use crate::literals::{character, literal, more_literals, number};
use crate::specifiers::{qualifier, specifier, stars};
use crate::{Fault, OperandStart, Precedence, Suffix, Tokens, read_list, right_of, try_with};
use c_ast::{
    AssignOp, BinaryOp, Dimension, Expr, ExprList, IncDec, Next, Selection, TypeName, UnaryOp,
};
use c_lex::{Keyword, Punct};
use sqlite_items::{Boxed, Items};

/// An operand of this precedence.
#[cycle(expression)]
pub fn operand(tokens: &mut Tokens, fuel: usize, precedence: Precedence) -> Result<Expr, Fault>
    ensures { Gives expr_tree (read fuel (nonterminal_of precedence) tokens.old) result tokens.new }
{
    if fuel == 0 {
        return Err(Fault::OutOfFuel);
    }
    let first = prefix(tokens, fuel - 1, precedence)?;
    operations(tokens, fuel, precedence, first)
}

/// An operand of this precedence, on the heap.
#[cycle(expression)]
fn boxed_operand(
    tokens: &mut Tokens,
    fuel: usize,
    precedence: Precedence,
) -> Result<Boxed<Expr>, Fault>
    ensures { Gives expr_tree (read fuel (nonterminal_of precedence) tokens.old) result tokens.new }
{
    let operand = operand(tokens, fuel, precedence)?;
    Ok(Boxed::new(tokens.alloc, operand)?)
}

/// An operand without the operators that may follow it.
#[cycle(expression)]
fn prefix(tokens: &mut Tokens, fuel: usize, precedence: Precedence) -> Result<Expr, Fault>
    ensures { Gives expr_tree (first (read fuel) (nonterminal_of precedence) tokens.old) result
        tokens.new }
{
    match tokens.operand_start(precedence) {
        None => Err(Fault::Syntax),
        Some(OperandStart::Name) => name(tokens, fuel),
        Some(OperandStart::Number) => number(tokens, fuel),
        Some(OperandStart::Char) => character(tokens, fuel),
        Some(OperandStart::Text) => string_literals(tokens, fuel),
        Some(OperandStart::Paren) => parenthesised(tokens, fuel),
        Some(OperandStart::Cast) => cast(tokens, fuel),
        Some(OperandStart::IncDec(op)) => increment(tokens, fuel, op),
        Some(OperandStart::Unary(op)) => unary(tokens, fuel, op),
        Some(OperandStart::Sizeof) => size_of(tokens, fuel),
    }
}

fn name(tokens: &mut Tokens, fuel: usize) -> Result<Expr, Fault>
    ensures { Gives expr_tree (begun (read fuel) (Some production.Name) tokens.old) result
        tokens.new }
{
    let name = tokens.identifier()?;
    Ok(Expr::Name(name))
}

/// String literals, as many as follow one another.
fn string_literals(tokens: &mut Tokens, fuel: usize) -> Result<Expr, Fault>
    ensures { Gives expr_tree (begun (read fuel) (Some production.Text) tokens.old) result
        tokens.new }
{
    let first = literal(tokens)?;
    let more = try_with!(more_literals(tokens, fuel); first);
    Ok(Expr::Text { first, more })
}

/// An expression in parentheses.
#[cycle(expression)]
fn parenthesised(tokens: &mut Tokens, fuel: usize) -> Result<Expr, Fault>
    ensures { Gives expr_tree (begun (read fuel) (Some production.Paren) tokens.old) result
        tokens.new }
{
    let open = tokens.expect(Punct::LParen)?;
    let inner = expression(tokens, fuel)?;
    let close = try_with!(tokens.expect(Punct::RParen); inner);
    Ok(Expr::Paren { open, inner, close })
}

#[cycle(expression)]
fn cast(tokens: &mut Tokens, fuel: usize) -> Result<Expr, Fault>
    ensures { Gives expr_tree (begun (read fuel) (Some production.Cast) tokens.old) result
        tokens.new }
{
    let open = tokens.expect(Punct::LParen)?;
    let target = type_name(tokens, fuel)?;
    let target = Boxed::new(tokens.alloc, target)?;
    let close = tokens.expect(Punct::RParen)?;
    let operand = boxed_operand(tokens, fuel, Precedence::Cast)?;
    Ok(Expr::Cast {
        open,
        target,
        close,
        operand,
    })
}

/// `++` or `--`, which comes next, and its operand.
#[cycle(expression)]
fn increment(tokens: &mut Tokens, fuel: usize, op: IncDec) -> Result<Expr, Fault>
    requires { head tokens.old ≡ Some (kind.Punct (inc_dec_mark op)) }
    ensures { Gives expr_tree (begun (read fuel) (Some production.Increment) tokens.old) result
        tokens.new }
{
    let span = tokens.expect(op.punct())?;
    let operand = boxed_operand(tokens, fuel, Precedence::Unary)?;
    Ok(Expr::Increment { op, span, operand })
}

/// This unary operator, which comes next, and its operand.
#[cycle(expression)]
fn unary(tokens: &mut Tokens, fuel: usize, op: UnaryOp) -> Result<Expr, Fault>
    requires { head tokens.old ≡ Some (kind.Punct (unary_mark op)) }
    ensures { Gives expr_tree (begun (read fuel) (Some production.Unary) tokens.old) result
        tokens.new }
{
    let span = tokens.expect(op.punct())?;
    let operand = boxed_operand(tokens, fuel, Precedence::Cast)?;
    Ok(Expr::Unary { op, span, operand })
}

/// `sizeof` and its operand.
#[cycle(expression)]
fn size_of(tokens: &mut Tokens, fuel: usize) -> Result<Expr, Fault>
    ensures { Gives expr_tree (begun (read fuel) (Some production.Sizeof) tokens.old) result
        tokens.new }
{
    let keyword = tokens.expect_keyword(Keyword::Sizeof)?;
    if fuel == 0 {
        return Err(Fault::OutOfFuel);
    }
    if tokens.sees_type_in_parentheses() {
        let open = tokens.expect(Punct::LParen)?;
        let operand = type_name(tokens, fuel - 1)?;
        let operand = Boxed::new(tokens.alloc, operand)?;
        let close = tokens.expect(Punct::RParen)?;
        return Ok(Expr::SizeofType {
            keyword,
            open,
            operand,
            close,
        });
    }
    let operand = boxed_operand(tokens, fuel, Precedence::Unary)?;
    Ok(Expr::Sizeof { keyword, operand })
}

/// What follows `left`, where an operand of this precedence is to stand.
#[cycle(expression)]
fn operations(
    tokens: &mut Tokens,
    fuel: usize,
    precedence: Precedence,
    left: Expr,
) -> Result<Expr, Fault>
    ensures { Gives expr_tree (turns (read (fuel - 1)) fuel (nonterminal_of precedence)
        (expr_tree left) tokens.old) result tokens.new }
{
    let mut left = left;
    for _turn in 0..fuel {
        match tokens.suffix_after(precedence, &left) {
            None => return Ok(left),
            Some(suffix) => left = longer(tokens, fuel - 1, suffix, left)?,
        }
    }
    drop(left);
    Err(Fault::OutOfFuel)
}

/// The operation of `left` with this operator, which comes next.
#[cycle(expression)]
fn longer(tokens: &mut Tokens, fuel: usize, suffix: Suffix, left: Expr) -> Result<Expr, Fault>
    requires { head tokens.old ≡ Some (kind.Punct (suffix_mark suffix)) }
    ensures { Gives expr_tree (later (read fuel) (suffix_production suffix) (expr_tree left)
        tokens.old) result tokens.new }
{
    let left = Boxed::new(tokens.alloc, left)?;
    match suffix {
        Suffix::Index => index(tokens, fuel, left),
        Suffix::Call => call(tokens, fuel, left),
        Suffix::Select(selection) => select(tokens, fuel, selection, left),
        Suffix::IncDec(op) => post_increment(tokens, fuel, op, left),
        Suffix::Conditional => conditional(tokens, fuel, left),
        Suffix::Assign(op) => assign(tokens, fuel, op, left),
        Suffix::Binary(op) => binary(tokens, fuel, op, left),
    }
}

/// `[`, an index and `]` after an array.
#[cycle(expression)]
fn index(tokens: &mut Tokens, fuel: usize, array: Boxed<Expr>) -> Result<Expr, Fault>
    ensures { Gives expr_tree (later (read fuel) production.Index (expr_tree array) tokens.old)
        result tokens.new }
{
    let open = tokens.expect(Punct::LBracket)?;
    let index = expression(tokens, fuel)?;
    let close = try_with!(tokens.expect(Punct::RBracket); index);
    Ok(Expr::Index {
        array,
        open,
        index,
        close,
    })
}

/// Arguments in parentheses after a function.
#[cycle(expression)]
fn call(tokens: &mut Tokens, fuel: usize, function: Boxed<Expr>) -> Result<Expr, Fault>
    ensures { Gives expr_tree (later (read fuel) production.Call (expr_tree function) tokens.old)
        result tokens.new }
{
    let open = tokens.expect(Punct::LParen)?;
    let arguments = arguments(tokens, fuel)?;
    let close = try_with!(tokens.expect(Punct::RParen); arguments);
    Ok(Expr::Call {
        function,
        open,
        arguments,
        close,
    })
}

/// `.` or `->` and a member's name after an object.
fn select(
    tokens: &mut Tokens,
    fuel: usize,
    selection: Selection,
    object: Boxed<Expr>,
) -> Result<Expr, Fault>
    ensures { Gives expr_tree (later (read fuel) (selection_production selection) (expr_tree
        object) tokens.old) result tokens.new }
{
    let span = tokens.expect(selection.punct())?;
    let member = tokens.identifier()?;
    Ok(Expr::Select {
        object,
        selection,
        span,
        member,
    })
}

/// `++` or `--`, which comes next, after its operand.
fn post_increment(
    tokens: &mut Tokens,
    fuel: usize,
    op: IncDec,
    operand: Boxed<Expr>,
) -> Result<Expr, Fault>
    requires { head tokens.old ≡ Some (kind.Punct (inc_dec_mark op)) }
    ensures { Gives expr_tree (later (read fuel) production.PostIncrement (expr_tree operand)
        tokens.old) result tokens.new }
{
    let span = tokens.expect(op.punct())?;
    Ok(Expr::PostIncrement { operand, op, span })
}

/// An assignment by this operator, which comes next, to a target.
#[cycle(expression)]
fn assign(
    tokens: &mut Tokens,
    fuel: usize,
    op: AssignOp,
    target: Boxed<Expr>,
) -> Result<Expr, Fault>
    requires { head tokens.old ≡ Some (kind.Punct (assign_mark op)) }
    ensures { Gives expr_tree (later (read fuel) production.Assignment (expr_tree target)
        tokens.old) result tokens.new }
{
    let span = tokens.expect(op.punct())?;
    let value = boxed_operand(tokens, fuel, Precedence::Assignment)?;
    Ok(Expr::Assign {
        target,
        op,
        span,
        value,
    })
}

/// This binary operator, which comes next, and its right operand after the left one.
#[cycle(expression)]
fn binary(tokens: &mut Tokens, fuel: usize, op: BinaryOp, left: Boxed<Expr>) -> Result<Expr, Fault>
    requires { head tokens.old ≡ Some (kind.Punct (binary_mark op)) }
    ensures { Gives expr_tree (later (read fuel) (production.Binary (binary_level op))
        (expr_tree left) tokens.old) result tokens.new }
{
    let span = tokens.expect(op.punct())?;
    let right = boxed_operand(tokens, fuel, right_of(op))?;
    Ok(Expr::Binary {
        left,
        op,
        span,
        right,
    })
}

/// `?` and `:` after a condition.
#[cycle(expression)]
fn conditional(tokens: &mut Tokens, fuel: usize, condition: Boxed<Expr>) -> Result<Expr, Fault>
    ensures { Gives expr_tree (later (read fuel) production.Conditional (expr_tree condition)
        tokens.old) result tokens.new }
{
    let question = tokens.expect(Punct::Question)?;
    let then = expression(tokens, fuel)?;
    let colon = try_with!(tokens.expect(Punct::Colon); then);
    let otherwise = try_with!(boxed_operand(tokens, fuel, Precedence::Conditional); then);
    Ok(Expr::Conditional {
        condition,
        question,
        then,
        colon,
        otherwise,
    })
}

/// A comma expression.
#[cycle(expression)]
pub fn expression(tokens: &mut Tokens, fuel: usize) -> Result<ExprList, Fault>
    ensures { Gives list_tree (read fuel nonterminal.Expr tokens.old) result tokens.new }
{
    if fuel == 0 {
        return Err(Fault::OutOfFuel);
    }
    let first = boxed_operand(tokens, fuel - 1, Precedence::Assignment)?;
    let more = more_expressions(tokens, fuel - 1)?;
    Ok(ExprList { first, more })
}

/// The arguments of a call, if there are any.
#[cycle(expression)]
fn arguments(tokens: &mut Tokens, fuel: usize) -> Result<Option<ExprList>, Fault>
    ensures { Gives (opt production.Arguments list_children) (read fuel (Opt
        production.Arguments) tokens.old) result tokens.new }
{
    if fuel == 0 {
        return Err(Fault::OutOfFuel);
    }
    if !tokens.sees_expression() {
        return Ok(None);
    }
    let first = boxed_operand(tokens, fuel - 1, Precedence::Assignment)?;
    let more = more_expressions(tokens, fuel - 1)?;
    Ok(Some(ExprList { first, more }))
}

/// Expressions after commas.
#[cycle(expression)]
fn more_expressions(tokens: &mut Tokens, fuel: usize) -> Result<Items<Next<Expr>>, Fault>
    ensures { Gives (many production.MoreAssigns (next expr_tree)) (read fuel (Many
        production.MoreAssigns) tokens.old) result tokens.new }
{
    if fuel == 0 {
        return Err(Fault::OutOfFuel);
    }
    let mut more = Items::new(tokens.alloc);
    read_list!(more, _turn in fuel; tokens.sees(Punct::Comma); {
        let comma = tokens.expect(Punct::Comma)?;
        let element = operand(tokens, fuel - 1, Precedence::Assignment)?;
        Next { comma, element }
    })
}

/// A type's name.
#[cycle(expression)]
fn type_name(tokens: &mut Tokens, fuel: usize) -> Result<TypeName, Fault>
    ensures { Gives type_tree (read fuel nonterminal.TypeName tokens.old) result tokens.new }
{
    if fuel == 0 {
        return Err(Fault::OutOfFuel);
    }
    let qualifier = qualifier(tokens, fuel - 1)?;
    let spec = specifier(tokens, fuel - 1)?;
    let stars = try_with!(stars(tokens, fuel - 1); spec);
    let dimensions = try_with!(dimensions(tokens, fuel - 1); spec);
    Ok(TypeName {
        qualifier,
        spec,
        stars,
        dimensions,
    })
}

/// Dimensions.
#[cycle(expression)]
pub fn dimensions(tokens: &mut Tokens, fuel: usize) -> Result<Items<Dimension>, Fault>
    ensures { Gives dimensions (read fuel (Many production.Dimensions) tokens.old) result
        tokens.new }
{
    if fuel == 0 {
        return Err(Fault::OutOfFuel);
    }
    let mut found = Items::new(tokens.alloc);
    read_list!(found, _turn in fuel; tokens.sees(Punct::LBracket); {
        let open = tokens.expect(Punct::LBracket)?;
        let size = operand(tokens, fuel - 1, Precedence::Conditional)?;
        let close = try_with!(tokens.expect(Punct::RBracket); size);
        Dimension { open, size, close }
    })
}
