//! Declarations at file scope (ISO 9899:2011, 6.9).
#![tactic(auto, using(crate::proofs::ExternalLemmas::externals), unfolding(c_ast::specs::Reader::children, c_ast::specs::Reader::one, c_ast::specs::PredictSets::begins_optional, c_ast::specs::PredictSets::begins_repeated, c_ast::specs::Grammar::rule, c_ast::specs::Grammar::symbols_of, c_ast::specs::Grammar::optional, c_ast::specs::Grammar::repeated, c_ast::specs::Externals::member, c_ast::specs::Externals::members, c_ast::specs::Externals::param, c_ast::specs::Externals::body_tree, c_ast::specs::Externals::external_tree, c_ast::specs::Externals::specified))]

ghost use Rattle.std.specs.Prelude.{◌≡◌, [], ◌∷◌, Some};
ghost use Rattle.c_ast.specs.Nonterminals as nonterminal;
ghost use Rattle.c_ast.specs.Nonterminals.{Opt, Many};
ghost use Rattle.c_ast.specs.Expressions.{next};
ghost use Rattle.c_ast.specs.Externals as view;
ghost use Rattle.c_ast.specs.Externals.{external_tree, specified, body_tree};
ghost use Rattle.c_ast.specs.Productions as production;
ghost use Rattle.c_ast.specs.Nodes.{opt, many, name};
ghost use Rattle.c_ast.specs.Reader.{read, begun};
ghost use Rattle.c_parse.specs.Externals.{rest_tree, declared_tree, after_tag_tree};
ghost use Rattle.c_parse_tokens.specs.Reading.{Gives};

use crate::declaration::{initializer, more_declarators, open_dimensions};
use crate::statement::block;
use c_ast::{
    Body, Declarator, External, Function, Globals, Identifier, Initializer, Member, Members, Next,
    OpenDimension, Param, Params, Span, Spec, Specifiers, StructBody, Structure, Unit,
};
use c_lex::{Keyword, Punct};
use c_parse_tokens::{
    ExternalStart, Fault, Tokens, dimensions, plain_specifier, qualifier, read_list, specifier,
    stars, try_with,
};
use sqlite_items::Items;

/// What stands after the name of a function or of the first variable.
#[derive(Drop)]
enum Rest {
    Function {
        open: Span,
        params: Option<Params>,
        close: Span,
        body: Body,
    },
    Globals {
        dimensions: Items<OpenDimension>,
        initializer: Option<Initializer>,
        more: Items<Next<Declarator>>,
        semicolon: Span,
    },
}

/// What stands after the type of a function or of variables.
#[derive(Drop)]
struct Declared {
    stars: Items<Span>,
    name: Identifier,
    rest: Rest,
}

/// What stands after `struct` and a name: the definition of the structure, or what is declared with
/// it.
#[derive(Drop)]
enum AfterTag {
    Struct {
        body: Option<StructBody>,
        semicolon: Span,
    },
    Declared(Declared),
}

/// The declarator of a member.
fn member(tokens: &mut Tokens, fuel: usize) -> Result<Member, Fault>
    ensures { Gives view.member (read fuel nonterminal.Member tokens.old) result tokens.new }
{
    if fuel == 0 {
        return Err(Fault::OutOfFuel);
    }
    let stars = stars(tokens, fuel - 1)?;
    let name = tokens.identifier()?;
    let dimensions = try_with!(dimensions(tokens, fuel - 1); name);
    Ok(Member {
        stars,
        name,
        dimensions,
    })
}

/// Declarators of members after commas.
fn more_members(tokens: &mut Tokens, fuel: usize) -> Result<Items<Next<Member>>, Fault>
    ensures { Gives view.more_members (read fuel (Many production.MoreMember) tokens.old) result
        tokens.new }
{
    if fuel == 0 {
        return Err(Fault::OutOfFuel);
    }
    let mut more = Items::new(tokens.alloc);
    read_list!(more, _turn in fuel; tokens.sees(Punct::Comma); {
        let comma = tokens.expect(Punct::Comma)?;
        let element = member(tokens, fuel - 1)?;
        Next { comma, element }
    })
}

/// Members of one type.
fn members(tokens: &mut Tokens, fuel: usize) -> Result<Members, Fault>
    ensures { Gives view.members (read fuel nonterminal.Members tokens.old) result tokens.new }
{
    if fuel == 0 {
        return Err(Fault::OutOfFuel);
    }
    let qualifier = qualifier(tokens, fuel - 1)?;
    let spec = specifier(tokens, fuel - 1)?;
    let first = try_with!(member(tokens, fuel - 1); spec);
    let more = try_with!(more_members(tokens, fuel - 1); spec, first);
    let semicolon = try_with!(tokens.expect(Punct::Semicolon); spec, first);
    Ok(Members {
        qualifier,
        spec,
        first,
        more,
        semicolon,
    })
}

/// Members after those of the first type.
fn further_members(tokens: &mut Tokens, fuel: usize) -> Result<Items<Members>, Fault>
    ensures { Gives (many production.MoreMembers (λ x. view.members x ∷ [])) (read fuel (Many
        production.MoreMembers) tokens.old) result tokens.new }
{
    if fuel == 0 {
        return Err(Fault::OutOfFuel);
    }
    let mut found = Items::new(tokens.alloc);
    read_list!(found, _turn in fuel; tokens.sees_type(); members(tokens, fuel - 1)?)
}

/// The name of a parameter, where it is written.
fn param_name(tokens: &mut Tokens, fuel: usize) -> Result<Option<Identifier>, Fault>
    ensures { Gives (opt production.ParamName (λ i. name i ∷ [])) (read fuel (Opt
        production.ParamName) tokens.old) result tokens.new }
{
    if fuel == 0 {
        return Err(Fault::OutOfFuel);
    }
    if !tokens.sees_name() {
        return Ok(None);
    }
    let name = tokens.identifier()?;
    Ok(Some(name))
}

/// A parameter.
fn param(tokens: &mut Tokens, fuel: usize) -> Result<Param, Fault>
    ensures { Gives view.param (read fuel nonterminal.Param tokens.old) result tokens.new }
{
    if fuel == 0 {
        return Err(Fault::OutOfFuel);
    }
    let qualifier = qualifier(tokens, fuel - 1)?;
    let spec = specifier(tokens, fuel - 1)?;
    let stars = try_with!(stars(tokens, fuel - 1); spec);
    let name = try_with!(param_name(tokens, fuel - 1); spec);
    let dimensions = try_with!(open_dimensions(tokens, fuel - 1); spec, name);
    Ok(Param {
        qualifier,
        spec,
        stars,
        name,
        dimensions,
    })
}

/// Parameters after commas.
fn more_params(tokens: &mut Tokens, fuel: usize) -> Result<Items<Next<Param>>, Fault>
    ensures { Gives (many production.MoreParams (next view.param)) (read fuel (Many
        production.MoreParams) tokens.old) result tokens.new }
{
    if fuel == 0 {
        return Err(Fault::OutOfFuel);
    }
    let mut more = Items::new(tokens.alloc);
    read_list!(more, _turn in fuel; tokens.sees(Punct::Comma); {
        let comma = tokens.expect(Punct::Comma)?;
        let element = param(tokens, fuel - 1)?;
        Next { comma, element }
    })
}

/// The parameters of a function, if any are written.
fn params(tokens: &mut Tokens, fuel: usize) -> Result<Option<Params>, Fault>
    ensures { Gives view.params (read fuel (Opt production.Params) tokens.old) result tokens.new }
{
    if fuel == 0 {
        return Err(Fault::OutOfFuel);
    }
    if !tokens.sees_type() {
        return Ok(None);
    }
    let first = param(tokens, fuel - 1)?;
    let more = try_with!(more_params(tokens, fuel - 1); first);
    Ok(Some(Params { first, more }))
}

/// The body of a function, or the semicolon in its offset.
fn body(tokens: &mut Tokens, fuel: usize) -> Result<Body, Fault>
    ensures { Gives body_tree (read fuel nonterminal.Body tokens.old) result tokens.new }
{
    if fuel == 0 {
        return Err(Fault::OutOfFuel);
    }
    if tokens.sees(Punct::Semicolon) {
        let semicolon = tokens.expect(Punct::Semicolon)?;
        return Ok(Body::Prototype(semicolon));
    }
    let block = block(tokens, fuel)?;
    Ok(Body::Block(block))
}

/// What stands after a name.
fn after_name(tokens: &mut Tokens, fuel: usize) -> Result<Rest, Fault>
    ensures { Gives rest_tree (read fuel nonterminal.AfterName tokens.old) result tokens.new }
{
    if fuel == 0 {
        return Err(Fault::OutOfFuel);
    }
    if tokens.sees(Punct::LParen) {
        function_rest(tokens, fuel - 1)
    } else {
        globals_rest(tokens, fuel - 1)
    }
}

/// What follows the name of a function.
fn function_rest(tokens: &mut Tokens, fuel: usize) -> Result<Rest, Fault>
    ensures { Gives rest_tree (begun (read fuel) (Some production.Function) tokens.old) result
        tokens.new }
{
    let open = tokens.expect(Punct::LParen)?;
    let params = params(tokens, fuel)?;
    let close = try_with!(tokens.expect(Punct::RParen); params);
    let body = try_with!(body(tokens, fuel); params);
    Ok(Rest::Function {
        open,
        params,
        close,
        body,
    })
}

/// What follows the name of the first variable.
fn globals_rest(tokens: &mut Tokens, fuel: usize) -> Result<Rest, Fault>
    ensures { Gives rest_tree (begun (read fuel) (Some production.Globals) tokens.old) result
        tokens.new }
{
    let dimensions = open_dimensions(tokens, fuel)?;
    let initializer = initializer(tokens, fuel)?;
    let more = try_with!(more_declarators(tokens, fuel); initializer);
    let semicolon = try_with!(tokens.expect(Punct::Semicolon); initializer);
    Ok(Rest::Globals {
        dimensions,
        initializer,
        more,
        semicolon,
    })
}

/// What stands after a type.
fn after_type(tokens: &mut Tokens, fuel: usize) -> Result<Declared, Fault>
    ensures { Gives declared_tree (read fuel nonterminal.AfterType tokens.old) result tokens.new }
{
    if fuel == 0 {
        return Err(Fault::OutOfFuel);
    }
    let stars = stars(tokens, fuel - 1)?;
    let name = tokens.identifier()?;
    let rest = try_with!(after_name(tokens, fuel - 1); name);
    Ok(Declared { stars, name, rest })
}

/// What stands after `struct` and a name.
fn after_tag(tokens: &mut Tokens, fuel: usize) -> Result<AfterTag, Fault>
    ensures { Gives after_tag_tree (read fuel nonterminal.AfterTag tokens.old) result tokens.new }
{
    if fuel == 0 {
        return Err(Fault::OutOfFuel);
    }
    if tokens.sees(Punct::Semicolon) {
        let semicolon = tokens.expect(Punct::Semicolon)?;
        return Ok(AfterTag::Struct {
            body: None,
            semicolon,
        });
    }
    if !tokens.sees(Punct::LBrace) {
        let declared = after_type(tokens, fuel)?;
        return Ok(AfterTag::Declared(declared));
    }
    struct_members(tokens, fuel - 1)
}

/// The members of a structure in braces, and the semicolon.
fn struct_members(tokens: &mut Tokens, fuel: usize) -> Result<AfterTag, Fault>
    ensures { Gives after_tag_tree (begun (read fuel) (Some production.StructMembers) tokens.old)
        result tokens.new }
{
    let open = tokens.expect(Punct::LBrace)?;
    let first = members(tokens, fuel)?;
    let more = try_with!(further_members(tokens, fuel); first);
    let close = try_with!(tokens.expect(Punct::RBrace); first);
    let semicolon = try_with!(tokens.expect(Punct::Semicolon); first);
    Ok(AfterTag::Struct {
        body: Some(StructBody {
            open,
            first,
            more,
            close,
        }),
        semicolon,
    })
}

/// A declaration at file scope.
fn external(tokens: &mut Tokens, fuel: usize) -> Result<External, Fault>
    ensures { Gives external_tree (read fuel nonterminal.External tokens.old) result tokens.new }
{
    if fuel == 0 {
        return Err(Fault::OutOfFuel);
    }
    match tokens.external_start() {
        None => Err(Fault::Syntax),
        Some(ExternalStart::Static) => static_external(tokens, fuel - 1),
        Some(ExternalStart::Const) => const_external(tokens, fuel - 1),
        Some(ExternalStart::Struct) => structure(tokens, fuel - 1),
        Some(ExternalStart::Plain) => plain_external(tokens, fuel - 1),
    }
}

/// A declaration at file scope that begins with `static`.
fn static_external(tokens: &mut Tokens, fuel: usize) -> Result<External, Fault>
    ensures { Gives external_tree (begun (read fuel) (Some production.Static) tokens.old) result
        tokens.new }
{
    let storage = tokens.expect_keyword(Keyword::Static)?;
    let qualifier = qualifier(tokens, fuel)?;
    let spec = specifier(tokens, fuel)?;
    let declared = try_with!(after_type(tokens, fuel); spec);
    Ok(whole(Some(storage), qualifier, spec, declared))
}

/// A declaration at file scope that begins with `const`.
fn const_external(tokens: &mut Tokens, fuel: usize) -> Result<External, Fault>
    ensures { Gives external_tree (begun (read fuel) (Some production.Const) tokens.old) result
        tokens.new }
{
    let qualifier = tokens.expect_keyword(Keyword::Const)?;
    let spec = specifier(tokens, fuel)?;
    let declared = try_with!(after_type(tokens, fuel); spec);
    Ok(whole(None, Some(qualifier), spec, declared))
}

/// A declaration at file scope that begins with a type that is no structure.
fn plain_external(tokens: &mut Tokens, fuel: usize) -> Result<External, Fault>
    ensures { Gives external_tree (begun (read fuel) (Some production.Plain) tokens.old) result
        tokens.new }
{
    let spec = plain_specifier(tokens, fuel)?;
    let declared = try_with!(after_type(tokens, fuel); spec);
    Ok(whole(None, None, spec, declared))
}

/// A declaration at file scope that begins with `struct`.
fn structure(tokens: &mut Tokens, fuel: usize) -> Result<External, Fault>
    ensures { Gives external_tree (begun (read fuel) (Some production.Struct) tokens.old) result
        tokens.new }
{
    let keyword = tokens.expect_keyword(Keyword::Struct)?;
    let tag = tokens.identifier()?;
    let rest = try_with!(after_tag(tokens, fuel); tag);
    match rest {
        AfterTag::Struct { body, semicolon } => Ok(External::Struct(Structure {
            keyword,
            tag,
            body,
            semicolon,
        })),
        AfterTag::Declared(declared) => {
            let spec = Spec::Struct { keyword, tag };
            Ok(whole(None, None, spec, declared))
        }
    }
}

/// Declarations at file scope.
pub(crate) fn unit(tokens: &mut Tokens, fuel: usize) -> Result<Unit, Fault>
    ensures { Gives view.unit_tree (read fuel (Many production.Externals) tokens.old) result
        tokens.new }
{
    if fuel == 0 {
        return Err(Fault::OutOfFuel);
    }
    let mut externals = Items::new(tokens.alloc);
    for _turn in 0..fuel {
        if !tokens.sees_external() {
            return Ok(Unit { externals });
        }
        let external = external(tokens, fuel - 1)?;
        externals.push(external)?;
    }
    Err(Fault::OutOfFuel)
}

/// What is declared, with its type in front of it.
fn whole(storage: Option<Span>, qualifier: Option<Span>, spec: Spec, declared: Declared) -> External
    ensures { external_tree result ≡ specified (record {
      storage = storage;
      qualifier = qualifier;
      spec = spec;
    }) (declared_tree declared) }
{
    let specifiers = Specifiers {
        storage,
        qualifier,
        spec,
    };
    let Declared { stars, name, rest } = declared;
    match rest {
        Rest::Function {
            open,
            params,
            close,
            body,
        } => External::Function(Function {
            specifiers,
            stars,
            name,
            open,
            params,
            close,
            body,
        }),
        Rest::Globals {
            dimensions,
            initializer,
            more,
            semicolon,
        } => External::Globals(Globals {
            specifiers,
            first: Declarator {
                stars,
                name,
                dimensions,
                initializer,
            },
            more,
            semicolon,
        }),
    }
}
