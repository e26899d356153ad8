//! What the next tokens begin.
#![tactic(auto, unfolding(c_ast::specs::Terminals::is, c_ast::specs::Terminals::keyword_number, c_ast::specs::Terminals::mark_number, c_ast::specs::Terminals::is_inc_dec_mark, c_ast::specs::Terminals::is_unary_mark, c_ast::specs::PredictSets::base, c_ast::specs::PredictSets::plain_spec, c_ast::specs::PredictSets::spec, c_ast::specs::PredictSets::begins_base, c_ast::specs::PredictSets::begins_type, c_ast::specs::PredictSets::begins_expr, c_ast::specs::PredictSets::typed, c_ast::specs::PredictSets::stmt, c_ast::specs::PredictSets::keyword_stmt, c_ast::specs::PredictSets::group_label, c_ast::specs::PredictSets::external))]

ghost use Rattle.std.specs.Prelude.{◌≡◌, option_map, IfSome, false, ◌&&◌};
ghost use Rattle.c_lex.specs.declared.punct.Punct.TheVariants as m;
ghost use Rattle.c_ast.specs.Terminals.{is, Mark, AnyName};
ghost use Rattle.std.specs.Option.{option_and_then};
ghost use Rattle.c_ast.specs.Productions as production;
ghost use Rattle.c_ast.specs.PredictSets as predict;
ghost use Rattle.c_ast.specs.PredictSets.{head, at, typed, begins_type, begins_expr};
ghost use Rattle.c_parse_tokens.specs.Ahead.{base_production, spec_production, stmt_production, case_production, external_production, starts_struct};

use crate::tokens::Tokens;
use c_lex::{Keyword, Punct, TokenKind};

/// A keyword that names an integer type without a sign.
#[derive(Clone, Copy)]
pub enum BaseKeyword {
    Char,
    Int,
    Short,
}

/// How type specifiers begin.
#[derive(Clone, Copy)]
pub enum SpecStart {
    Void,
    Base(BaseKeyword),
    Struct,
    Signed,
}

impl Tokens<'_> {
    /// The keyword of an integer type that comes next, or `None` before anything else.
    pub fn base_keyword(&self) -> Option<BaseKeyword>
        ensures { option_map base_production result ≡ option_and_then predict.base (head self.now) }
    {
        match self.peek() {
            Some(TokenKind::Keyword(Keyword::Char)) => Some(BaseKeyword::Char),
            Some(TokenKind::Keyword(Keyword::Int)) => Some(BaseKeyword::Int),
            Some(TokenKind::Keyword(Keyword::Short)) => Some(BaseKeyword::Short),
            _ => None,
        }
    }

    /// How the type specifiers that come next begin, or `None` where none do.
    pub fn spec_start(&self) -> Option<SpecStart>
        ensures { option_map spec_production result ≡ option_and_then predict.spec (head self.now) }
    {
        match self.peek() {
            Some(TokenKind::Keyword(Keyword::Void)) => Some(SpecStart::Void),
            Some(TokenKind::Keyword(Keyword::Char)) => Some(SpecStart::Base(BaseKeyword::Char)),
            Some(TokenKind::Keyword(Keyword::Int)) => Some(SpecStart::Base(BaseKeyword::Int)),
            Some(TokenKind::Keyword(Keyword::Short)) => Some(SpecStart::Base(BaseKeyword::Short)),
            Some(TokenKind::Keyword(Keyword::Struct)) => Some(SpecStart::Struct),
            Some(TokenKind::Keyword(Keyword::Signed | Keyword::Unsigned)) => Some(
                SpecStart::Signed,
            ),
            _ => None,
        }
    }

    /// As `spec_start`, but no structure.
    pub fn plain_spec_start(&self) -> Option<SpecStart>
        ensures production { option_map spec_production result ≡ option_and_then predict.plain_spec
            (head self.now) }
        ensures plain { IfSome result (λ s. starts_struct s ≡ false) }
    {
        match self.peek() {
            Some(TokenKind::Keyword(Keyword::Void)) => Some(SpecStart::Void),
            Some(TokenKind::Keyword(Keyword::Char)) => Some(SpecStart::Base(BaseKeyword::Char)),
            Some(TokenKind::Keyword(Keyword::Int)) => Some(SpecStart::Base(BaseKeyword::Int)),
            Some(TokenKind::Keyword(Keyword::Short)) => Some(SpecStart::Base(BaseKeyword::Short)),
            Some(TokenKind::Keyword(Keyword::Signed | Keyword::Unsigned)) => Some(
                SpecStart::Signed,
            ),
            _ => None,
        }
    }

    /// Whether `char`, `int` or `short` comes next.
    pub fn sees_base(&self) -> bool
        ensures { result ≡ at predict.begins_base (head self.now) }
    {
        matches!(
            self.peek(),
            Some(TokenKind::Keyword(Keyword::Char | Keyword::Int | Keyword::Short))
        )
    }

    /// Whether a declaration's type comes next.
    pub fn sees_type(&self) -> bool
        ensures { result ≡ at begins_type (head self.now) }
    {
        match self.peek() {
            Some(kind) => begins_type(kind),
            None => false,
        }
    }

    /// Whether a type stands after the next token.
    pub fn sees_type_second(&self) -> bool
        ensures { result ≡ typed self.now }
    {
        match self.peek_second() {
            Some(kind) => begins_type(kind),
            None => false,
        }
    }

    /// Whether `(` and a type come next.
    pub fn sees_type_in_parentheses(&self) -> bool
        ensures { result ≡ (at (is (Mark m.LParen)) (head self.now) && typed self.now) }
    {
        self.sees(Punct::LParen) && self.sees_type_second()
    }

    /// Whether an expression comes next.
    pub fn sees_expression(&self) -> bool
        ensures { result ≡ at begins_expr (head self.now) }
    {
        match self.peek() {
            Some(kind) => begins_expr(kind),
            None => false,
        }
    }
}

/// Whether the type of a declaration may begin with a token of this kind.
pub fn begins_type(kind: &TokenKind) -> bool
    ensures { result ≡ predict.begins_type kind.now }
{
    matches!(
        kind,
        TokenKind::Keyword(
            Keyword::Const
                | Keyword::Void
                | Keyword::Char
                | Keyword::Int
                | Keyword::Short
                | Keyword::Signed
                | Keyword::Unsigned
                | Keyword::Struct
        )
    )
}

/// Whether an expression may begin with a token of this kind.
pub fn begins_expr(kind: &TokenKind) -> bool
    ensures { result ≡ predict.begins_expr kind.now }
{
    match kind {
        TokenKind::Name(_) | TokenKind::Number { .. } | TokenKind::Char(_) | TokenKind::Text(_) =>
            true,
        TokenKind::Keyword(keyword) => matches!(keyword, Keyword::Sizeof),
        TokenKind::Punct(punct) => matches!(
            punct,
            Punct::LParen
                | Punct::PlusPlus
                | Punct::MinusMinus
                | Punct::Amp
                | Punct::Star
                | Punct::Plus
                | Punct::Minus
                | Punct::Tilde
                | Punct::Bang
        ),
    }
}

/// How a statement begins.
#[derive(Clone, Copy)]
pub enum StmtStart {
    Simple(SimpleStart),
    Block,
    If,
    While,
    Do,
    For,
    Switch,
}

/// How a statement begins that holds no other.
#[derive(Clone, Copy)]
pub enum SimpleStart {
    Null,
    Expression,
    Break,
    Continue,
    Return,
}

/// A label of a `switch`.
#[derive(Clone, Copy)]
pub enum LabelStart {
    Case,
    Default,
}

/// How a declaration at file scope begins.
#[derive(Clone, Copy)]
pub enum ExternalStart {
    Static,
    Const,
    Struct,
    Plain,
}

impl Tokens<'_> {
    /// How the statement that comes next begins, or `None` where none does.
    pub fn stmt_start(&self) -> Option<StmtStart>
        ensures { option_map stmt_production result ≡ option_and_then predict.stmt (head self.now) }
    {
        match self.peek() {
            Some(TokenKind::Keyword(keyword)) => keyword_start(*keyword),
            Some(TokenKind::Punct(Punct::Semicolon)) => Some(StmtStart::Simple(SimpleStart::Null)),
            Some(TokenKind::Punct(Punct::LBrace)) => Some(StmtStart::Block),
            Some(kind) if begins_expr(kind) => Some(StmtStart::Simple(SimpleStart::Expression)),
            _ => None,
        }
    }

    /// Whether a statement comes next.
    pub fn sees_statement(&self) -> bool
        ensures { result ≡ at (predict.begins_repeated production.MoreStmts) (head self.now) }
    {
        self.stmt_start().is_some()
    }

    /// Whether a statement or a declaration comes next.
    #[tactic(auto, using(crate::proofs::Begins::beginnings))]
    pub fn sees_item(&self) -> bool
        ensures { result ≡ at (predict.begins_repeated production.Items) (head self.now) }
    {
        self.sees_type() || self.sees_statement()
    }

    /// The label of a `switch` that comes next, or `None` where none does.
    pub fn label_start(&self) -> Option<LabelStart>
        ensures { option_map case_production result ≡ option_and_then predict.group_label (head
            self.now) }
    {
        match self.peek() {
            Some(TokenKind::Keyword(Keyword::Case)) => Some(LabelStart::Case),
            Some(TokenKind::Keyword(Keyword::Default)) => Some(LabelStart::Default),
            _ => None,
        }
    }

    /// Whether a name comes next.
    pub fn sees_name(&self) -> bool
        ensures { result ≡ at (is AnyName) (head self.now) }
    {
        matches!(self.peek(), Some(TokenKind::Name(_)))
    }

    /// Whether a label of a `switch` comes next.
    pub fn sees_label(&self) -> bool
        ensures groups { result ≡ at (predict.begins_repeated production.Groups) (head self.now) }
        ensures labels { result ≡ at (predict.begins_repeated production.MoreLabels) (head
            self.now) }
    {
        self.label_start().is_some()
    }

    /// How the declaration at file scope that comes next begins, or `None` where none does.
    pub fn external_start(&self) -> Option<ExternalStart>
        ensures { option_map external_production result ≡ option_and_then predict.external (head
            self.now) }
    {
        match self.peek() {
            Some(TokenKind::Keyword(Keyword::Static)) => Some(ExternalStart::Static),
            Some(TokenKind::Keyword(Keyword::Const)) => Some(ExternalStart::Const),
            Some(TokenKind::Keyword(Keyword::Struct)) => Some(ExternalStart::Struct),
            Some(
                TokenKind::Keyword(
                    Keyword::Void
                    | Keyword::Char
                    | Keyword::Int
                    | Keyword::Short
                    | Keyword::Signed
                    | Keyword::Unsigned,
                ),
            ) => Some(ExternalStart::Plain),
            _ => None,
        }
    }

    /// Whether a declaration at file scope comes next.
    #[tactic(auto, using(crate::proofs::Begins::beginnings))]
    pub fn sees_external(&self) -> bool
        ensures { result ≡ at (predict.begins_repeated production.Externals) (head self.now) }
    {
        self.sees_type() || self.sees_keyword(Keyword::Static)
    }
}

/// The statement that a keyword begins.
fn keyword_start(keyword: Keyword) -> Option<StmtStart>
    ensures { option_map stmt_production result ≡ predict.keyword_stmt keyword }
{
    match keyword {
        Keyword::If => Some(StmtStart::If),
        Keyword::While => Some(StmtStart::While),
        Keyword::Do => Some(StmtStart::Do),
        Keyword::For => Some(StmtStart::For),
        Keyword::Break => Some(StmtStart::Simple(SimpleStart::Break)),
        Keyword::Continue => Some(StmtStart::Simple(SimpleStart::Continue)),
        Keyword::Return => Some(StmtStart::Simple(SimpleStart::Return)),
        Keyword::Switch => Some(StmtStart::Switch),
        Keyword::Sizeof => Some(StmtStart::Simple(SimpleStart::Expression)),
        _ => None,
    }
}
