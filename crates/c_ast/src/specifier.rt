//! Type specifiers.
#![tactic(auto, unfolding(crate::specs::Spelling::spelled))]

ghost use Rattle.std.specs.Prelude.{◌≡◌, Some};
ghost use Rattle.c_ast.specs.Specifiers.{spec_tree, base_tree};
ghost use Rattle.c_ast.specs.Spelling.{start_of};

use crate::{Identifier, Span};

/// The type specifiers of a declaration (ISO 9899:2011, 6.7.2).
#[derive(Drop)]
pub enum Spec {
    Void(Span),
    /// `char`, `int` or `short` alone.
    Plain(Base),
    Struct {
        keyword: Span,
        tag: Identifier,
    },
    /// `signed` or `unsigned`, and what follows it.
    Signed {
        sign: Sign,
        span: Span,
        base: Option<Base>,
    },
}

/// The keyword that says whether an integer type has a sign (ISO 9899:2011, 6.7.2).
#[derive(Clone, Copy)]
pub enum Sign {
    Signed,
    Unsigned,
}

/// An integer type without its sign. `int` may follow `short`.
#[derive(Clone, Copy)]
pub enum Base {
    Char(Span),
    Int(Span),
    Short { short: Span, int: Option<Span> },
}

impl Spec {
    /// The offset of its first token.
    pub fn start(&self) -> u32
        ensures { start_of (spec_tree self.now) ≡ Some result }
    {
        match self {
            Spec::Plain(base) => base.start(),
            Spec::Void(span) | Spec::Signed { span, .. } => span.at,
            Spec::Struct { keyword, .. } => keyword.at,
        }
    }
}

impl Base {
    /// The offset of its first token.
    pub fn start(&self) -> u32
        ensures { start_of (base_tree self.now) ≡ Some result }
    {
        match self {
            Base::Char(span) | Base::Int(span) => span.at,
            Base::Short { short, .. } => short.at,
        }
    }
}
