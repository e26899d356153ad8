//! Declarations of variables in blocks: declarators, dimensions and initialisers.
#![tactic(auto, using(crate::proofs::StartLemmas::starts))]

ghost use Rattle.std.specs.Prelude.{◌≡◌, Some};
ghost use Rattle.c_ast.specs.Declarations.{init_tree};
ghost use Rattle.c_ast.specs.Spelling.{start_of};

use crate::{Expr, Identifier, Next, Span, Spec};
use sqlite_items::{Boxed, Items};

/// A declaration of variables in a block (ISO 9899:2011, 6.7).
#[derive(Drop)]
pub struct Locals {
    pub qualifier: Option<Span>,
    pub spec: Boxed<Spec>,
    pub first: Boxed<Declarator>,
    pub more: Items<Next<Declarator>>,
    pub semicolon: Span,
}

/// A declarator of a variable, with its initialiser where it has one (ISO 9899:2011, 6.7.6).
#[derive(Drop)]
pub struct Declarator {
    pub stars: Items<Span>,
    pub name: Identifier,
    pub dimensions: Items<OpenDimension>,
    pub initializer: Option<Initializer>,
}

/// A dimension of an array, whose size may be left out.
#[derive(Drop)]
pub struct OpenDimension {
    pub open: Span,
    pub size: Option<Expr>,
    pub close: Span,
}

/// `=` and what a variable begins with (ISO 9899:2011, 6.7.9).
#[derive(Drop)]
pub struct Initializer {
    pub equal: Span,
    pub init: Init,
}

/// What a variable or an element begins with (ISO 9899:2011, 6.7.9).
#[cycle(init)]
#[derive(Drop)]
pub enum Init {
    Value(Expr),
    /// Initialisers in braces. A comma may stand after the last one.
    List {
        open: Span,
        first: Boxed<Init>,
        more: Items<Next<Init>>,
        comma: Option<Span>,
        close: Span,
    },
}

impl Init {
    /// The offset of its first token.
    pub fn start(&self) -> u32
        ensures { start_of (init_tree self.now) ≡ Some result }
    {
        match self {
            Init::Value(value) => value.start(),
            Init::List { open, .. } => open.at,
        }
    }
}
