//! Translation units: structures, variables at file scope, and functions with their parameters.
#![tactic(auto, using(crate::proofs::StartLemmas::starts))]

ghost use Rattle.std.specs.Prelude.{◌≡◌, ◌↔◌, IsTrue, Some};
ghost use Rattle.c_ast.specs.Externals.{AreNone, param, specified};
ghost use Rattle.c_ast.specs.Spelling.{start_of};
ghost use Rattle.c_ast.specs.Tree.{Tree};

use crate::{Block, Declarator, Dimension, Identifier, Next, OpenDimension, Span, Spec};
use sqlite_items::Items;

/// A translation unit (ISO 9899:2011, 6.9).
#[derive(Drop)]
pub struct Unit {
    pub externals: Items<External>,
}

/// A declaration at file scope, or a definition of a function (ISO 9899:2011, 6.9).
#[derive(Drop)]
pub enum External {
    Struct(Structure),
    Function(Function),
    Globals(Globals),
}

/// What a declaration at file scope begins with (ISO 9899:2011, 6.7).
#[derive(Drop)]
pub struct Specifiers {
    /// `static`
    pub storage: Option<Span>,
    /// `const`
    pub qualifier: Option<Span>,
    pub spec: Spec,
}

/// A declaration of a structure, with or without its members (ISO 9899:2011, 6.7.2.1).
#[derive(Drop)]
pub struct Structure {
    pub keyword: Span,
    pub tag: Identifier,
    pub body: Option<StructBody>,
    pub semicolon: Span,
}

/// The members of a structure in braces (ISO 9899:2011, 6.7.2.1).
#[derive(Drop)]
pub struct StructBody {
    pub open: Span,
    pub first: Members,
    pub more: Items<Members>,
    pub close: Span,
}

/// Members of one type.
#[derive(Drop)]
pub struct Members {
    pub qualifier: Option<Span>,
    pub spec: Spec,
    pub first: Member,
    pub more: Items<Next<Member>>,
    pub semicolon: Span,
}

/// A declarator of a member (ISO 9899:2011, 6.7.2.1).
#[derive(Drop)]
pub struct Member {
    pub stars: Items<Span>,
    pub name: Identifier,
    pub dimensions: Items<Dimension>,
}

/// A declaration or a definition of a function.
#[derive(Drop)]
pub struct Function {
    pub specifiers: Specifiers,
    pub stars: Items<Span>,
    pub name: Identifier,
    pub open: Span,
    pub params: Option<Params>,
    pub close: Span,
    pub body: Body,
}

/// What follows the parameters of a function: a semicolon, or its statements (ISO 9899:2011,
/// 6.9.1).
#[derive(Drop)]
pub enum Body {
    /// None: the function is only declared.
    Prototype(Span),
    Block(Block),
}

/// The parameters of a function. Those of `(void)` are the lone parameter `void`, which means that
/// there are none.
#[derive(Drop)]
pub struct Params {
    pub first: Param,
    pub more: Items<Next<Param>>,
}

/// A declaration of a parameter, whose name may be left out (ISO 9899:2011, 6.7.6).
#[derive(Drop)]
pub struct Param {
    pub qualifier: Option<Span>,
    pub spec: Spec,
    pub stars: Items<Span>,
    pub name: Option<Identifier>,
    pub dimensions: Items<OpenDimension>,
}

/// Variables at file scope.
#[derive(Drop)]
pub struct Globals {
    pub specifiers: Specifiers,
    pub first: Declarator,
    pub more: Items<Next<Declarator>>,
    pub semicolon: Span,
}

impl Specifiers {
    /// The offset of their first token.
    pub fn start(&self) -> u32
        ensures { (rest : Tree) → start_of (specified self.now rest) ≡ Some result }
    {
        match (self.storage, self.qualifier) {
            (Some(storage), _) => storage.at,
            (None, Some(qualifier)) => qualifier.at,
            (None, None) => self.spec.start(),
        }
    }
}

impl Params {
    /// Whether they are the lone `void`, which means that there are none (ISO 9899:2011, 6.7.6.3,
    /// paragraph 10).
    pub fn are_none(&self) -> bool
        ensures { IsTrue result ↔ AreNone self.now }
    {
        let first = &self.first;
        matches!(first.spec, Spec::Void(_))
            && first.qualifier.is_none()
            && first.name.is_none()
            && first.stars.is_empty()
            && first.dimensions.is_empty()
            && self.more.is_empty()
    }
}

impl Param {
    /// The offset of its first token.
    pub fn start(&self) -> u32
        ensures { start_of (param self.now) ≡ Some result }
    {
        match self.qualifier {
            Some(qualifier) => qualifier.at,
            None => self.spec.start(),
        }
    }
}
