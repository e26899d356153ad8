//! The types that type specifiers name.

ghost use Rattle.std.specs.Prelude.{◌≡◌, [], ◌∷◌, IfOk, OnOk, if◌then◌else◌};
ghost use Rattle.c_lex.specs.declared.token.TokenKind.TheVariants as kind;
ghost use Rattle.c_ast.specs.Productions as l;
ghost use Rattle.c_ast.specs.Nodes.{opt};
ghost use Rattle.c_ast.specs.Specifiers.{spec_tree, base_tree, sign_word};
ghost use Rattle.c_check_def.specs.Specifiers.{base_scalar, signed_base, scalar_of_sign, signed_scalar, unsigned_scalar, known, specified_type, tagged};
ghost use Rattle.c_type.specs.Trees.{scalar_type};
ghost use Rattle.c_check_state.specs.Frames.{KeepsDeclarations};

use crate::State;
use base::{Name, NoMemory};
use c_ast::{Base, Sign, Spec};
use c_type::{CType, Scalar};
use std::alloc::Global;
use std::marker::Model;
use std::sync::Arc;

/// A type that specifiers name (ISO/IEC 9899:2011, 6.7.2). Where it is a struct whose tag is not
/// declared there, also the offset of the tag. Contracts see its tree.
#[derive(Drop)]
pub struct Specified {
    pub ty: Arc<CType>,
    pub undeclared: Option<u32>,
}

impl Model for Specified {
    ghost use Rattle.c_check_def.specs.Specifiers.{Specified as Record};

    ghost Value = { Record };

    ghost use Rattle.c_check_state.specs.TypeCodes.{coded_specified};

    ghost coded = { coded_specified };

    ghost view = { λ x. record { type = x.ty.value; undeclared = x.undeclared } };
}

/// The type that specifiers name. A tag that is new gets a number.
pub fn specified_type(state: &mut State, spec: &Spec) -> Result<Specified, NoMemory>
    ensures value { IfOk result (λ r. r ≡ (specified_type (spec_tree spec.now) state.old).0) }
    ensures state { OnOk result
        (state.new ≡ (specified_type (spec_tree spec.now) state.old).1) }
    ensures keeps { OnOk result (KeepsDeclarations state.old state.new) }
{
    match spec {
        Spec::Void(_) => known(state.alloc(), CType::void()),
        Spec::Plain(base) => plain(state.alloc(), *base),
        Spec::Signed { sign, base, .. } => signed(state.alloc(), *sign, *base),
        Spec::Struct { tag, .. } => tagged(state, &tag.name, tag.span.at),
    }
}

/// The struct of this tag, whose offset is given.
pub fn tagged(state: &mut State, name: &Name, offset: u32) -> Result<Specified, NoMemory>
    ensures value { IfOk result (λ r. r ≡ (tagged name.now offset state.old).0) }
    ensures state { OnOk result (state.new ≡ (tagged name.now offset state.old).1) }
    ensures keeps { OnOk result (KeepsDeclarations state.old state.new) }
{
    let declared = state.is_tag(name);
    let tag = state.tag_of(name)?;
    let ty = Arc::new(state.alloc(), CType::structure(tag))?;
    Ok(Specified {
        ty,
        undeclared: undeclared_at(declared, offset),
    })
}

fn undeclared_at(declared: bool, offset: u32) -> Option<u32>
    ensures { result ≡ (if declared then None else Some offset) }
{
    if declared { None } else { Some(offset) }
}

fn known(alloc: Global, ty: CType) -> Result<Specified, NoMemory>
    ensures { IfOk result (λ r. r ≡ known ty) }
{
    Ok(Specified {
        ty: Arc::new(alloc, ty)?,
        undeclared: None,
    })
}

fn plain(alloc: Global, base: Base) -> Result<Specified, NoMemory>
    ensures { IfOk result (λ r. r ≡ known (scalar_type (base_scalar (base_tree base)))) }
{
    known(alloc, CType::scalar(base_scalar(base)))
}

fn signed(alloc: Global, sign: Sign, base: Option<Base>) -> Result<Specified, NoMemory>
    ensures { IfOk result (λ r. r ≡
        known (scalar_type (scalar_of_sign (kind.Keyword (sign_word sign))
        (signed_base (opt l.SignedBase (λ x. base_tree x ∷ []) base))))) }
{
    known(
        alloc,
        CType::scalar(scalar_of_sign(sign, signed_base(base))),
    )
}

// An integer type without its sign.
fn base_scalar(base: Base) -> Scalar
    ensures { result ≡ base_scalar (base_tree base) }
{
    match base {
        Base::Char(_) => Scalar::Char,
        Base::Int(_) => Scalar::Int,
        Base::Short { .. } => Scalar::Short,
    }
}

// The type that a sign goes before, `int` where there is none.
fn signed_base(base: Option<Base>) -> Scalar
    ensures { result ≡ signed_base (opt l.SignedBase (λ x. base_tree x ∷ []) base) }
{
    match base {
        Some(base) => base_scalar(base),
        None => Scalar::Int,
    }
}

fn scalar_of_sign(sign: Sign, s: Scalar) -> Scalar
    ensures { result ≡ scalar_of_sign (kind.Keyword (sign_word sign)) s }
{
    match sign {
        Sign::Signed => signed_scalar(s),
        Sign::Unsigned => unsigned_scalar(s),
    }
}

fn signed_scalar(s: Scalar) -> Scalar
    ensures { result ≡ signed_scalar s }
{
    match s {
        Scalar::Char => Scalar::SignedChar,
        _ => s,
    }
}

fn unsigned_scalar(s: Scalar) -> Scalar
    ensures { result ≡ unsigned_scalar s }
{
    match s {
        Scalar::Char => Scalar::UnsignedChar,
        Scalar::Short => Scalar::UnsignedShort,
        _ => Scalar::UnsignedInt,
    }
}
