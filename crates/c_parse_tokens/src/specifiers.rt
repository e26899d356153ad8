//! Type specifiers, qualifiers and the stars of declarators (ISO 9899:2011, 6.7.2, 6.7.6).
#![tactic(auto, using(crate::proofs::lemmas::Reads::stepping), unfolding(c_ast::specs::Reader::read, c_ast::specs::Reader::step, c_ast::specs::Reader::first, c_ast::specs::Reader::begun, c_ast::specs::Reader::children, c_ast::specs::Reader::one, c_ast::specs::Reader::turns, c_ast::specs::Reader::goes_on, c_ast::specs::PredictSets::start, c_ast::specs::PredictSets::next, c_ast::specs::PredictSets::begins_optional, c_ast::specs::Grammar::rule, c_ast::specs::Grammar::symbols_of, c_ast::specs::Grammar::optional))]

ghost use Rattle.c_ast.specs.Nonterminals.{Opt, Many};
ghost use Rattle.c_ast.specs.Nonterminals as nonterminal;
ghost use Rattle.c_ast.specs.Productions as production;
ghost use Rattle.c_ast.specs.Terminals.{SignKeyword};
ghost use Rattle.c_ast.specs.Specifiers.{constant, stars, base_tree, spec_tree, sign_word};
ghost use Rattle.c_ast.specs.Nodes.{opt, word};
ghost use Rattle.c_lex.specs.declared.keyword.Keyword.TheVariants as w;
ghost use Rattle.c_ast.specs.Reader.{read, begun, token};
ghost use Rattle.c_parse_tokens.specs.Reading.{Gives};
ghost use Rattle.c_parse_tokens.specs.Ahead.{base_production, spec_production, starts_struct, is_struct};
ghost use Rattle.std.specs.Prelude.{◌≡◌, [], ◌∷◌, false, IfOk};

use crate::{BaseKeyword, Fault, SpecStart, Tokens, read_list};
use c_ast::{Base, Sign, Span, Spec};
use c_lex::{Keyword, Punct};
use sqlite_items::Items;

/// `const`, where it comes next.
pub fn qualifier(tokens: &mut Tokens, fuel: usize) -> Result<Option<Span>, Fault>
    ensures { Gives constant (read fuel (Opt production.Constant) tokens.old) result tokens.new }
{
    if fuel == 0 {
        return Err(Fault::OutOfFuel);
    }
    if !tokens.sees_keyword(Keyword::Const) {
        return Ok(None);
    }
    let span = tokens.expect_keyword(Keyword::Const)?;
    Ok(Some(span))
}

/// The `*`s of a declarator.
#[tactic(auto, using(crate::proofs::lemmas::Reads::star_loops))]
pub fn stars(tokens: &mut Tokens, fuel: usize) -> Result<Items<Span>, Fault>
    ensures { Gives stars (read fuel (Many production.Stars) tokens.old) result tokens.new }
{
    if fuel == 0 {
        return Err(Fault::OutOfFuel);
    }
    let mut spans = Items::new(tokens.alloc);
    read_list!(spans, _turn in fuel; tokens.sees(Punct::Star); tokens.expect(Punct::Star)?)
}

/// `char`, `int` or `short`, of which this one is to come next.
fn base_by(tokens: &mut Tokens, fuel: usize, word: BaseKeyword) -> Result<Base, Fault>
    ensures { Gives base_tree (begun (read fuel) (Some (base_production word)) tokens.old) result
        tokens.new }
{
    match word {
        BaseKeyword::Char => {
            let span = tokens.expect_keyword(Keyword::Char)?;
            Ok(Base::Char(span))
        }
        BaseKeyword::Int => {
            let span = tokens.expect_keyword(Keyword::Int)?;
            Ok(Base::Int(span))
        }
        BaseKeyword::Short => {
            let short = tokens.expect_keyword(Keyword::Short)?;
            let int = short_int(tokens, fuel)?;
            Ok(Base::Short { short, int })
        }
    }
}

/// `int` after `short`, where it is written.
fn short_int(tokens: &mut Tokens, fuel: usize) -> Result<Option<Span>, Fault>
    ensures { Gives (opt production.ShortInt (λ span. word w.Int span ∷ [])) (read fuel (Opt
        production.ShortInt) tokens.old) result tokens.new }
{
    if fuel == 0 {
        return Err(Fault::OutOfFuel);
    }
    if !tokens.sees_keyword(Keyword::Int) {
        return Ok(None);
    }
    let span = tokens.expect_keyword(Keyword::Int)?;
    Ok(Some(span))
}

/// `char`, `int` or `short`.
fn base(tokens: &mut Tokens, fuel: usize) -> Result<Base, Fault>
    ensures { Gives base_tree (read fuel nonterminal.Base tokens.old) result tokens.new }
{
    if fuel == 0 {
        return Err(Fault::OutOfFuel);
    }
    match tokens.base_keyword() {
        Some(word) => base_by(tokens, fuel - 1, word),
        None => Err(Fault::Syntax),
    }
}

/// What follows `signed` or `unsigned`, where anything does.
fn signed_base(tokens: &mut Tokens, fuel: usize) -> Result<Option<Base>, Fault>
    ensures { Gives (opt production.SignedBase (λ b. base_tree b ∷ [])) (read fuel (Opt
        production.SignedBase) tokens.old) result tokens.new }
{
    if fuel == 0 {
        return Err(Fault::OutOfFuel);
    }
    if !tokens.sees_base() {
        return Ok(None);
    }
    let base = base(tokens, fuel - 1)?;
    Ok(Some(base))
}

/// `signed` or `unsigned`.
#[tactic(auto, using(crate::proofs::lemmas::Reads::signs))]
fn sign(tokens: &mut Tokens) -> Result<(Sign, Span), Fault>
    ensures { Gives (λ s. word (sign_word s.0) s.1) (token SignKeyword tokens.old) result
        tokens.new }
{
    if tokens.sees_keyword(Keyword::Unsigned) {
        let span = tokens.expect_keyword(Keyword::Unsigned)?;
        Ok((Sign::Unsigned, span))
    } else {
        let span = tokens.expect_keyword(Keyword::Signed)?;
        Ok((Sign::Signed, span))
    }
}

/// Type specifiers, which are to begin as `start` says.
fn spec_by(tokens: &mut Tokens, fuel: usize, start: SpecStart) -> Result<Spec, Fault>
    ensures tree { Gives spec_tree (begun (read fuel) (Some (spec_production start)) tokens.old)
        result tokens.new }
    ensures structure { IfOk result (λ s. is_struct s ≡ starts_struct start) }
{
    match start {
        SpecStart::Void => {
            let span = tokens.expect_keyword(Keyword::Void)?;
            Ok(Spec::Void(span))
        }
        SpecStart::Base(word) => {
            let base = base_by(tokens, fuel, word)?;
            Ok(Spec::Plain(base))
        }
        SpecStart::Struct => {
            let keyword = tokens.expect_keyword(Keyword::Struct)?;
            let tag = tokens.identifier()?;
            Ok(Spec::Struct { keyword, tag })
        }
        SpecStart::Signed => {
            let (sign, span) = sign(tokens)?;
            let base = signed_base(tokens, fuel)?;
            Ok(Spec::Signed { sign, span, base })
        }
    }
}

/// Type specifiers.
pub fn specifier(tokens: &mut Tokens, fuel: usize) -> Result<Spec, Fault>
    ensures { Gives spec_tree (read fuel nonterminal.Spec tokens.old) result tokens.new }
{
    if fuel == 0 {
        return Err(Fault::OutOfFuel);
    }
    match tokens.spec_start() {
        Some(start) => spec_by(tokens, fuel - 1, start),
        None => Err(Fault::Syntax),
    }
}

/// Type specifiers of no structure.
pub fn plain_specifier(tokens: &mut Tokens, fuel: usize) -> Result<Spec, Fault>
    ensures tree { Gives spec_tree (read fuel nonterminal.PlainSpec tokens.old) result tokens.new }
    ensures plain { IfOk result (λ s. is_struct s ≡ false) }
{
    if fuel == 0 {
        return Err(Fault::OutOfFuel);
    }
    match tokens.plain_spec_start() {
        Some(start) => spec_by(tokens, fuel - 1, start),
        None => Err(Fault::Syntax),
    }
}
