//! Typed expressions, and the objects that they designate.

use crate::{BinaryOp, CompoundOp, IncDec, UnaryOp};
use c_type::CType;
use std::marker::Model;
use std::sync::Arc;

/// An expression with its type (ISO/IEC 9899:2011, 6.5). Types are shared. Contracts see its tree.
#[cycle(typed)]
#[derive(Drop)]
pub struct TExpr {
    pub ty: Arc<CType>,
    pub form: ExprForm,
}

/// The form of an expression. Operands are evaluated from left to right.
#[cycle(typed)]
#[derive(Drop)]
pub enum ExprForm {
    /// A number, a character, a size, or what a constant is worth: a word.
    Constant(u32),
    /// The value of an object of scalar type (6.3.2.1p2).
    Read(TPlace),
    /// The address of an object; of an array, that of its first element too (6.5.3.2, 6.3.2.1p3).
    Address(TPlace),
    Unary(UnaryOp, Box<TExpr>),
    Binary(BinaryOp, Box<TExpr>, Box<TExpr>),
    LogicalAnd(Box<TExpr>, Box<TExpr>),
    LogicalOr(Box<TExpr>, Box<TExpr>),
    /// `?:` of its condition and two operands of the type of the expression (6.5.15).
    Conditional(Box<TExpr>, Box<TExpr>, Box<TExpr>),
    /// The operands of commas, all but the last, and the last (6.5.17).
    Comma(Vec<TExpr>, Box<TExpr>),
    /// The value, of the type of the place, becomes the place's (6.5.16.1).
    Assign(TPlace, Box<TExpr>),
    Compound(CompoundOp, TPlace, Box<TExpr>),
    IncDec(IncDec, TPlace),
    /// A call of the function of this number (6.5.2.2).
    Call(u32, Vec<TExpr>),
    /// A call of `getchar` (7.21.7.6).
    Get,
}

/// What designates an object (6.3.2.1), with the object's type. Contracts see its tree.
#[cycle(typed)]
#[derive(Drop)]
pub struct TPlace {
    pub ty: Arc<CType>,
    pub form: PlaceForm,
}

/// How an object is designated.
#[cycle(typed)]
#[derive(Drop)]
pub enum PlaceForm {
    /// The variable at this slot: as many variables of the function were in scope where it was
    /// declared.
    Local(u32),
    /// The global of this number.
    Global(u32),
    /// What a pointer points to.
    At(Box<TExpr>),
    /// The member at an offset in bytes of a struct.
    Member(Box<TPlace>, u32),
}

impl Model for TExpr {
    ghost use Rattle.c_typed.specs.Typed.{ExprTree, expr_size};
    ghost use Rattle.c_typed.specs.ExprEncoding.{coded_expr};

    ghost Value = { ExprTree };

    ghost coded = { coded_expr };

    ghost use Rattle.c_typed.specs.Typed.{expr};
    ghost use Rattle.c_typed.specs.ExprViews.{form_of};

    ghost view = { λ e. expr e.ty.value (form_of e.form) };

    ghost size = { expr_size };

    ghost use Rattle.c_typed.specs.ExprHeight.{expr_height};

    ghost size_decreases = { λ a h. expr_height a.form };
}

impl Model for TPlace {
    ghost use Rattle.c_typed.specs.Typed.{PlaceTree, place_size};
    ghost use Rattle.c_typed.specs.ExprEncoding.{coded_place};

    ghost Value = { PlaceTree };

    ghost coded = { coded_place };

    ghost use Rattle.c_typed.specs.Typed.{place};
    ghost use Rattle.c_typed.specs.ExprViews.{place_form_of};

    ghost view = { λ p. place p.ty.value (place_form_of p.form) };

    ghost size = { place_size };

    ghost use Rattle.c_typed.specs.ExprHeight.{place_height};

    ghost size_decreases = { λ a h. place_height a.form };
}
