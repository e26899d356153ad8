//! Declarations of variables and their initialisers (ISO 9899:2011, 6.7).
#![tactic(auto, using(crate::proofs::DeclarationLemmas::declarations), unfolding(c_ast::specs::Reader::first, c_ast::specs::Reader::begun, c_ast::specs::Reader::later, c_ast::specs::Reader::children, c_ast::specs::Reader::one, c_ast::specs::Reader::step, c_ast::specs::Reader::turns, c_ast::specs::Reader::goes_on, c_ast::specs::PredictSets::start, c_ast::specs::PredictSets::next, c_ast::specs::PredictSets::begins_optional, c_ast::specs::PredictSets::begins_repeated, c_ast::specs::Grammar::rule, c_ast::specs::Grammar::symbols_of, c_ast::specs::Grammar::optional, c_ast::specs::Grammar::repeated, c_parse_tokens::specs::Operands::nonterminal_of, c_ast::specs::Declarations::declarator, c_ast::specs::Declarations::locals_tree))]

ghost use Rattle.std.specs.Prelude.{◌≡◌, ◌||◌, [], ◌∷◌, Some, None, if◌then◌else◌};
ghost use Rattle.c_ast.specs.Nonterminals as nonterminal;
ghost use Rattle.c_ast.specs.Nonterminals.{Opt, Many};
ghost use Rattle.c_ast.specs.Declarations.{init_tree, open_dimensions, initializer, declarator, more_declarators, locals_tree};
ghost use Rattle.c_ast.specs.Expressions.{expr_tree};
ghost use Rattle.c_ast.specs.Productions as production;
ghost use Rattle.c_ast.specs.Nodes.{opt, node};
ghost use Rattle.c_ast.specs.Specifiers.{constant, spec_tree};
ghost use Rattle.c_ast.specs.Terminals.{Mark};
ghost use Rattle.c_ast.specs.Reader.{Read, and_then, read, begun, later, production_of, token};
ghost use Rattle.c_ast.specs.PredictSets.{head, at, begins_init, next};
ghost use Rattle.c_lex.specs.declared.punct.Punct.TheVariants as m;
ghost use Rattle.c_parse.specs.Made.{inits_tree, more_production};
ghost use Rattle.c_parse_tokens.specs.Reading.{Gives};

use c_ast::{Declarator, Expr, Init, Initializer, Locals, Next, OpenDimension, Span, Spec};
use c_lex::Punct;
use c_parse_tokens::{
    Fault, Precedence, Tokens, operand, qualifier, read_list, specifier, stars, try_with,
};
use sqlite_items::{Boxed, Items};

/// Initialisers between braces.
#[derive(Drop)]
struct Inits {
    first: Boxed<Init>,
    more: Items<Next<Init>>,
    comma: Option<Span>,
}

/// The size of a dimension, where it is written.
fn size(tokens: &mut Tokens, fuel: usize) -> Result<Option<Expr>, Fault>
    ensures { Gives (opt production.Size (λ e. expr_tree e ∷ [])) (read fuel (Opt
        production.Size) tokens.old) result tokens.new }
{
    if fuel == 0 {
        return Err(Fault::OutOfFuel);
    }
    if !tokens.sees_expression() {
        return Ok(None);
    }
    let size = operand(tokens, fuel - 1, Precedence::Conditional)?;
    Ok(Some(size))
}

/// Dimensions whose sizes may be left out.
pub(crate) fn open_dimensions(
    tokens: &mut Tokens,
    fuel: usize,
) -> Result<Items<OpenDimension>, Fault>
    ensures { Gives open_dimensions (read fuel (Many production.OpenDimensions) tokens.old)
        result tokens.new }
{
    if fuel == 0 {
        return Err(Fault::OutOfFuel);
    }
    let mut found = Items::new(tokens.alloc);
    read_list!(found, _turn in fuel; tokens.sees(Punct::LBracket); {
        let open = tokens.expect(Punct::LBracket)?;
        let size = size(tokens, fuel - 1)?;
        let close = try_with!(tokens.expect(Punct::RBracket); size);
        OpenDimension { open, size, close }
    })
}

/// Whether an initialiser comes next.
fn sees_init(tokens: &Tokens) -> bool
    ensures { result ≡ at begins_init (head tokens.now) }
{
    tokens.sees_expression() || tokens.sees(Punct::LBrace)
}

/// An initialiser.
#[cycle(init)]
fn init(tokens: &mut Tokens, fuel: usize) -> Result<Init, Fault>
    ensures { Gives init_tree (read fuel nonterminal.Init tokens.old) result tokens.new }
{
    if fuel == 0 {
        return Err(Fault::OutOfFuel);
    }
    if !tokens.sees(Punct::LBrace) {
        let value = operand(tokens, fuel, Precedence::Assignment)?;
        return Ok(Init::Value(value));
    }
    init_list(tokens, fuel - 1)
}

/// Initialisers in braces.
#[cycle(init)]
fn init_list(tokens: &mut Tokens, fuel: usize) -> Result<Init, Fault>
    ensures { Gives init_tree (begun (read fuel) (Some production.InitList) tokens.old) result
        tokens.new }
{
    let open = tokens.expect(Punct::LBrace)?;
    let Inits { first, more, comma } = init_items(tokens, fuel)?;
    let close = tokens.expect(Punct::RBrace)?;
    Ok(Init::List {
        open,
        first,
        more,
        comma,
        close,
    })
}

/// Initialisers between braces, after the last of which a comma may stand.
#[cycle(init)]
fn init_items(tokens: &mut Tokens, fuel: usize) -> Result<Inits, Fault>
    ensures { Gives inits_tree (read fuel nonterminal.InitItems tokens.old) result tokens.new }
{
    if fuel == 0 {
        return Err(Fault::OutOfFuel);
    }
    let value = init(tokens, fuel - 1)?;
    let first = Boxed::new(tokens.alloc, value)?;
    let more = Items::new(tokens.alloc);
    let mut inits = Inits {
        first,
        more,
        comma: None,
    };
    for _turn in 0..fuel {
        if !sees_more(tokens, &inits) {
            return Ok(inits);
        }
        inits = more_inits(tokens, fuel - 1, inits)?;
    }
    drop(inits);
    Err(Fault::OutOfFuel)
}

/// Whether initialisers go on: with a comma after the last one, or with an initialiser after a
/// comma.
fn sees_more(tokens: &Tokens, inits: &Inits) -> bool
    ensures { next nonterminal.InitItems (production_of (inits_tree inits.now)) (head tokens.now)
        ≡ (if result then Some (more_production inits.now) else None) }
{
    match inits.comma {
        None => tokens.sees(Punct::Comma),
        Some(_) => sees_init(tokens),
    }
}

/// A comma, or an initialiser after one.
#[cycle(init)]
fn more_inits(tokens: &mut Tokens, fuel: usize, inits: Inits) -> Result<Inits, Fault>
    ensures { Gives inits_tree (later (read fuel) (more_production inits) (inits_tree inits)
        tokens.old) result tokens.new }
{
    let Inits {
        first,
        mut more,
        comma,
    } = inits;
    match comma {
        None => {
            let span = tokens.expect(Punct::Comma)?;
            Ok(Inits {
                first,
                more,
                comma: Some(span),
            })
        }
        Some(comma) => {
            let element = init(tokens, fuel)?;
            more.push(Next { comma, element })?;
            Ok(Inits {
                first,
                more,
                comma: None,
            })
        }
    }
}

/// `=` and an initialiser, where they are written.
pub(crate) fn initializer(tokens: &mut Tokens, fuel: usize) -> Result<Option<Initializer>, Fault>
    ensures { Gives initializer (read fuel (Opt production.Initialiser) tokens.old) result
        tokens.new }
{
    if fuel == 0 {
        return Err(Fault::OutOfFuel);
    }
    if !tokens.sees(Punct::Equal) {
        return Ok(None);
    }
    let equal = tokens.expect(Punct::Equal)?;
    let init = init(tokens, fuel - 1)?;
    Ok(Some(Initializer { equal, init }))
}

/// The declarator of a variable.
fn declarator(tokens: &mut Tokens, fuel: usize) -> Result<Declarator, Fault>
    ensures { Gives declarator (read fuel nonterminal.Decl tokens.old) result tokens.new }
{
    if fuel == 0 {
        return Err(Fault::OutOfFuel);
    }
    let stars = stars(tokens, fuel - 1)?;
    let name = tokens.identifier()?;
    let dimensions = try_with!(open_dimensions(tokens, fuel - 1); name);
    let initializer = try_with!(initializer(tokens, fuel - 1); name);
    Ok(Declarator {
        stars,
        name,
        dimensions,
        initializer,
    })
}

/// Declarators after commas.
pub(crate) fn more_declarators(
    tokens: &mut Tokens,
    fuel: usize,
) -> Result<Items<Next<Declarator>>, Fault>
    ensures { Gives more_declarators (read fuel (Many production.MoreDecls) tokens.old) result
        tokens.new }
{
    if fuel == 0 {
        return Err(Fault::OutOfFuel);
    }
    let mut more = Items::new(tokens.alloc);
    read_list!(more, _turn in fuel; tokens.sees(Punct::Comma); {
        let comma = tokens.expect(Punct::Comma)?;
        let element = declarator(tokens, fuel - 1)?;
        Next { comma, element }
    })
}

/// A declaration of variables in a block.
#[tactic(auto, using(crate::proofs::DeclarationLemmas::local_reads))]
pub(crate) fn locals(tokens: &mut Tokens, fuel: usize) -> Result<Locals, Fault>
    ensures { Gives locals_tree (read fuel nonterminal.Locals tokens.old) result tokens.new }
{
    if fuel == 0 {
        return Err(Fault::OutOfFuel);
    }
    let qualifier = qualifier(tokens, fuel - 1)?;
    let spec = specifier(tokens, fuel - 1)?;
    let spec = Boxed::new(tokens.alloc, spec)?;
    variables(tokens, fuel - 1, qualifier, spec)
}

/// The variables that are declared with this type, and the semicolon after them.
#[tactic(auto, using(crate::proofs::DeclarationLemmas::local_reads))]
fn variables(
    tokens: &mut Tokens,
    fuel: usize,
    qualifier: Option<Span>,
    spec: Boxed<Spec>,
) -> Result<Locals, Fault>
    ensures { Gives locals_tree (and_then (read fuel nonterminal.Decl tokens.old) (λ t k.
        and_then (read fuel (Many production.MoreDecls) k) (λ u j. and_then (token (Mark
        m.Semicolon) j) (λ v i. Read (node production.Locals (constant qualifier ∷ spec_tree
        spec ∷ t ∷ u ∷ v ∷ [])) i)))) result tokens.new }
{
    let first = declarator(tokens, fuel)?;
    let first = Boxed::new(tokens.alloc, first)?;
    let more = more_declarators(tokens, fuel)?;
    let semicolon = tokens.expect(Punct::Semicolon)?;
    Ok(Locals {
        qualifier,
        spec,
        first,
        more,
        semicolon,
    })
}
